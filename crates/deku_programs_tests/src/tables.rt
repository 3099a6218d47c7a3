//! Pictures as tables, against tables drawn by hand.

use crate::runs::expect_runs;
use deku_testing::runs::Run;
use std::test::Fail;

const SPLIT: &str = " byte 0          byte 1          byte 2
 7 6 5 4 3 2 1 0 7 6 5 4 3 2 1 0 7 6 5 4 3 2 1 0
+-------+-------+-------------------------------+
|  f1   |  f2   |              f3               |
| 3..0  | 3..0  |             15..0             |
+-------+-------+-------------------------------+

f1 u8,big,bits4
f2 u8,big,bits4
f3 u16,big
";

const LOW_FIRST: &str = " byte 0          byte 1          byte 2
 7 6 5 4 3 2 1 0 7 6 5 4 3 2 1 0 7 6 5 4 3 2 1 0
+-----+---------+---------------+-----+---------+
|  b  |    a    |       b       |  c  |    b    |
|2..0 |  4..0   |     10..3     |2..0 | 15..11  |
+-----+---------+---------------+-----+---------+

a u8,lsb,bits5
b u16,lsb
c u8,lsb,bits3
";

const INSTRUCTION: &str = " byte 0          byte 1          byte 2          byte 3
 7 6 5 4 3 2 1 0 7 6 5 4 3 2 1 0 7 6 5 4 3 2 1 0 7 6 5 4 3 2 1 0
+---------------+-----+---------+---------------+-+-+-+---------+
|      imm      | fn  |   imm   |      op       |x|y|z|  rest   |
|     15..8     |2..0 |  4..0   |     7..0      |0|0|0|  4..0   |
+---------------+-----+---------+---------------+-+-+-+---------+

imm  u16,big,lsb,bits13
fn   u8,big,lsb,bits3
op   u8,big
x    u8,big,bits1
y    u8,big,bits1
z    u8,big,bits1
rest u8,big,bits5
";

#[test]
fn draws_worked_lists(rt: HostRuntime) -> Result<(), Fail> {
    let runs: [Run; 3] = [
        Run::printing("/u8,big,bits4/u8,big,bits4/u16,big", SPLIT),
        Run::printing("/a:u8,lsb,bits5/b:u16,lsb/c:u8,lsb,bits3", LOW_FIRST),
        Run::printing(
            "/imm:u16,big,lsb,bits13/fn:u8,big,lsb,bits3/op:u8,big/x:u8,big,bits1/y:u8,big,bits1/z:u8,big,bits1/rest:u8,big,bits5",
            INSTRUCTION,
        ),
    ];
    expect_runs(rt.alloc(), &runs)
}

const LONG_NAME: &str = " byte 0
 7 6 5 4 3 2 1 0
+---------------+
|aaaaaaaaaaaaaaa|
|aaaaaaaaaaaaaaa|
|aaaaaaaaaaaaaaa|
|aaaaaaaaaaaaaaa|
|     aaaa      |
|     7..0      |
+---------------+

aaaaaaaaaaaaaaaaaaaaaaaaaaaaaaaaaaaaaaaaaaaaaaaaaaaaaaaaaaaaaaaa u8
";

// A name of 64 letters and six others, of which the first 64 are shown.
#[test]
fn draws_the_front_of_a_long_name(rt: HostRuntime) -> Result<(), Fail> {
    let runs: [Run; 1] = [Run::printing(
        "/aaaaaaaaaaaaaaaaaaaaaaaaaaaaaaaaaaaaaaaaaaaaaaaaaaaaaaaaaaaaaaaabbbbbb:u8",
        LONG_NAME,
    )];
    expect_runs(rt.alloc(), &runs)
}

const TEN_LITTLE: &str = " byte 0          byte 1
 7 6 5 4 3 2 1 0 7 6 5 4 3 2 1 0
+---------------+---+-----------+
|      f1       |f1 |     -     |
|     7..0      |9..|           |
|               | 8 |           |
+---------------+---+-----------+

f1 u16,bits10
";

const TEN_BIG: &str = " byte 0          byte 1
 7 6 5 4 3 2 1 0 7 6 5 4 3 2 1 0
+-------------------+-----------+
|        f1         |     -     |
|       9..0        |           |
+-------------------+-----------+

f1 u16,big,bits10
";

const TEN_LOW: &str = " byte 0          byte 1
 7 6 5 4 3 2 1 0 7 6 5 4 3 2 1 0
+---------------+-----------+---+
|      f1       |     -     |f1 |
|     7..0      |           |9..|
|               |           | 8 |
+---------------+-----------+---+

f1 u16,lsb,bits10
";

const LITTLE: &str = " byte 0          byte 1          byte 2          byte 3
 7 6 5 4 3 2 1 0 7 6 5 4 3 2 1 0 7 6 5 4 3 2 1 0 7 6 5 4 3 2 1 0
+---------------+---------------+---------------+---------------+
|      f1       |      f1       |      f1       |      f1       |
|     7..0      |     15..8     |    23..16     |    31..24     |
+---------------+---------------+---------------+---------------+

f1 u32
";

const LITTLE_AND_BYTE: &str = " byte 0          byte 1          byte 2
 7 6 5 4 3 2 1 0 7 6 5 4 3 2 1 0 7 6 5 4 3 2 1 0
+---------------+---------------+---------------+
|      f1       |      f1       |      f2       |
|     7..0      |     15..8     |     7..0      |
+---------------+---------------+---------------+

f1 u32,bytes2
f2 u8
";

#[test]
fn draws_numbers_across_bytes(rt: HostRuntime) -> Result<(), Fail> {
    let runs: [Run; 5] = [
        Run::printing("/u16,bits10", TEN_LITTLE),
        Run::printing("/u16,big,bits10", TEN_BIG),
        Run::printing("/u16,lsb,bits10", TEN_LOW),
        Run::printing("/u32", LITTLE),
        Run::printing("/u32,bytes2/u8", LITTLE_AND_BYTE),
    ];
    expect_runs(rt.alloc(), &runs)
}

const WIDE: &str = " byte 0          byte 1          byte 2          byte 3
 7 6 5 4 3 2 1 0 7 6 5 4 3 2 1 0 7 6 5 4 3 2 1 0 7 6 5 4 3 2 1 0
+---------------+-----------------------------------------------+
|     port      |                       n                       |
|     7..0      |                     31..8                     |
+---------------+-----------------------------------------------+

 byte 4          byte 5
 7 6 5 4 3 2 1 0 7 6 5 4 3 2 1 0
+---------------+---+-----------+
|       n       |end|     -     |
|     7..0      |1..|           |
|               | 0 |           |
+---------------+---+-----------+

port u8
n    u32,big
end  i8,big,bits2
";

const NARROW: &str = " byte 0
 7 6 5 4 3 2 1 0
+-+-------------+
|f|    rest     |
|l|             |
|a|             |
|g|             |
|0|    6..0     |
+-+-------------+

flag u8,big,bits1
rest u8,big,bits7
";

const PADDED_LOW: &str = " byte 0
 7 6 5 4 3 2 1 0
+---------+-----+
|    -    | f1  |
|         |2..0 |
+---------+-----+

f1 u8,lsb,bits3
";

const BETWEEN: &str = " byte 0
 7 6 5 4 3 2 1 0
+-------+-------+
|   a   |   b   |
| 3..0  | 3..0  |
+-------+-------+

a    u8,big,bits4
none u8,bits0
b    u8,big,bits4
";

#[test]
fn draws_rows_and_padding(rt: HostRuntime) -> Result<(), Fail> {
    let runs: [Run; 5] = [
        Run::printing("/port:u8/n:u32,big/end:i8,big,bits2", WIDE),
        Run::printing("/flag:u8,big,bits1/rest:u8,big,bits7", NARROW),
        Run::printing("/u8,lsb,bits3", PADDED_LOW),
        Run::printing("/a:u8,big,bits4/none:u8,bits0/b:u8,big,bits4", BETWEEN),
        Run::printing("/u8,bits0", "f1 u8,bits0\n"),
    ];
    expect_runs(rt.alloc(), &runs)
}

const SPLIT_BYTES: &str = " byte 0          byte 1          byte 2
 7 6 5 4 3 2 1 0 7 6 5 4 3 2 1 0 7 6 5 4 3 2 1 0
+-------+-------+-------------------------------+
|  f1   |  f2   |              f3               |
| 3..0  | 3..0  |             15..0             |
|0 1 1 0|1 0 0 1|1 1 0 0 0 0 0 0 1 1 1 1 1 1 1 0|
+-------+-------+-------------------------------+

f1 u8,big,bits4 6
f2 u8,big,bits4 9
f3 u16,big      49406
";

const LOW_FIRST_BYTES: &str = " byte 0          byte 1          byte 2
 7 6 5 4 3 2 1 0 7 6 5 4 3 2 1 0 7 6 5 4 3 2 1 0
+-----+---------+---------------+-----+---------+
|  b  |    a    |       b       |  c  |    b    |
|2..0 |  4..0   |     10..3     |2..0 | 15..11  |
|1 0 1|0 0 0 0 1|0 0 1 1 0 1 0 0|0 0 0|1 0 0 1 0|
+-----+---------+---------------+-----+---------+

a u8,lsb,bits5 1
b u16,lsb      37285
c u8,lsb,bits3 0
";

const SIGNED_BYTES: &str = " byte 0          byte 1
 7 6 5 4 3 2 1 0 7 6 5 4 3 2 1 0
+---------------+-------+-------+
|       n       |   n   |   -   |
|     7..0      | 11..8 |       |
|1 1 1 1 1 1 1 0|1 1 1 1|0 0 1 1|
+---------------+-------+-------+

n i16,bits12 -2
";

#[test]
fn draws_bytes(rt: HostRuntime) -> Result<(), Fail> {
    let runs: [Run; 3] = [
        Run::printing(
            "/--bytes/69C0fe/u8,big,bits4/u8,big,bits4/u16,big",
            SPLIT_BYTES,
        ),
        Run::printing(
            "/--bytes/a1341207/a:u8,lsb,bits5/b:u16,lsb/c:u8,lsb,bits3",
            LOW_FIRST_BYTES,
        ),
        Run::printing("/--bytes/fef3/n:i16,bits12", SIGNED_BYTES),
    ];
    expect_runs(rt.alloc(), &runs)
}
