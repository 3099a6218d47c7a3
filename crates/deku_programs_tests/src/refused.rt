//! Words that are of no form, and fields that have no picture or no values.

use crate::runs::Layout;
use deku_testing::runs::expect_lines;
use std::test::Fail;

// Words of no form; words that are no field, which are printed; fields that have no picture; and
// bytes that are none, or too few.
const RUNS: &str = "||2||usage: layout [--svg|--bytes HEX] [NAME:]SPEC..;
/--svg||2||usage: layout [--svg|--bytes HEX] [NAME:]SPEC..;
/--bytes||2||usage: layout [--svg|--bytes HEX] [NAME:]SPEC..;
/--bytes/69||2||usage: layout [--svg|--bytes HEX] [NAME:]SPEC..;
/u8/u9/u7||2||usage: layout [--svg|--bytes HEX] [NAME:]SPEC.., and \"u9\" is not a field;
/--svg/a:u8,bits4,big||2||usage: layout [--svg|--bytes HEX] [NAME:]SPEC.., and \"a:u8,bits4,big\" is not a field;
/--bytes/6g/u8/--svg||2||usage: layout [--svg|--bytes HEX] [NAME:]SPEC.., and \"--svg\" is not a field;
/u8/--bytes||2||usage: layout [--svg|--bytes HEX] [NAME:]SPEC.., and \"--bytes\" is not a field;
/u8;||2||usage: layout [--svg|--bytes HEX] [NAME:]SPEC.., and \"u8\\n\" is not a field;
/u8,big,bits3/u16,lsb,bits9||1||error: Invalid param error: order changes inside a byte;
/--svg/u8,big,bits3/u8,lsb,bits3||1||error: Invalid param error: order changes inside a byte;
/u8,bits9||1||error: Invalid param error: bit size is larger than input;
/n:u16,bytes3||1||error: Invalid param error: byte size is larger than input;
/i16,big,lsb,bits13||1||error: Invalid param error: signed big Lsb0 field of this width;
/--bytes/6g/u8||1||error: bad hexadecimal text;
/--bytes/6/u8||1||error: bad hexadecimal text;
/--bytes/u8/u8||1||error: bad hexadecimal text;
/--bytes/69/u16||1||error: Not enough data, need 16 bits (or 2 bytes);
/--bytes//u8||1||error: Not enough data, need 8 bits (or 1 bytes);
";

#[test]
fn tells_what_is_wrong(rt: HostRuntime) -> Result<(), Fail> {
    expect_lines(rt.alloc(), &Layout, RUNS)
}
