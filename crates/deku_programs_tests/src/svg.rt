//! Pictures as SVG, against one that was drawn by hand.

use crate::runs::expect_runs;
use deku_testing::runs::Run;
use std::test::Fail;

const PICTURE: &str =
    "<svg xmlns=\"http://www.w3.org/2000/svg\" width=\"660\" height=\"138\" viewBox=\"0 0 660 138\" font-family=\"monospace\" font-size=\"10\" text-anchor=\"middle\">
<rect width=\"660\" height=\"138\" fill=\"white\"/>
<text x=\"90\" y=\"20\">byte 0</text>
<text x=\"20\" y=\"34\">7</text>
<text x=\"40\" y=\"34\">6</text>
<text x=\"60\" y=\"34\">5</text>
<text x=\"80\" y=\"34\">4</text>
<text x=\"100\" y=\"34\">3</text>
<text x=\"120\" y=\"34\">2</text>
<text x=\"140\" y=\"34\">1</text>
<text x=\"160\" y=\"34\">0</text>
<rect x=\"10\" y=\"38\" width=\"20\" height=\"52\" fill=\"#cfe2f3\" stroke=\"black\"/>
<text x=\"20\" y=\"52\">fla</text>
<text x=\"20\" y=\"66\">g</text>
<text x=\"20\" y=\"80\">0</text>
<rect x=\"30\" y=\"38\" width=\"60\" height=\"52\" fill=\"#d9ead3\" stroke=\"black\"/>
<text x=\"60\" y=\"52\">f2</text>
<text x=\"60\" y=\"80\">2..0</text>
<rect x=\"90\" y=\"38\" width=\"80\" height=\"52\" fill=\"#eeeeee\" stroke=\"black\"/>
<text x=\"130\" y=\"52\">-</text>
<text x=\"10\" y=\"100\" text-anchor=\"start\" xml:space=\"preserve\">
<tspan x=\"10\" dy=\"14\">flag u8,big,bits1</tspan>
<tspan x=\"10\" dy=\"14\">f2   i8,big,bits3</tspan>
</text>
</svg>
";

#[test]
fn draws_a_picture(rt: HostRuntime) -> Result<(), Fail> {
    let runs: [Run; 1] = [Run::printing("/--svg/flag:u8,big,bits1/i8,big,bits3", PICTURE)];
    expect_runs(rt.alloc(), &runs)
}
