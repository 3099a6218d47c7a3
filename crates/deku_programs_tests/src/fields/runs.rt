//! The program's runs, one a line: the words, the input, the status, what is printed and what is
//! complained of, with bars between them. Each word has a slash in front of it, and a semicolon is
//! a newline.

/// What is written, to the bounds of numbers; what is read; values, sizes and input that are
/// refused; and words of no form that the program knows.
pub const RUNS: &str = "/write/u8,big,bits4=6/u8,big,bits4=9/u16,big=49406||0|69c0fe;|
/write/u8,big,bits3=5||0|a0;|
/write/u8,big,msb,bits3=5||0|a0;|
/write||0|;|
/write/i8,bits3=-3||0|a0;|
/write/i16,bits12=-2||0|fef0;|
/write/u32,big,bytes2=772||0|0304;|
/write/u8,big,bits3=5/u16,lsb,bits9=257||0|b001;|
/write/u8,lsb,bits3=5/u128,lsb=170141183460469231731687303715884105729||0|0d00000000000000000000000000000004;|
/write/u16,big,lsb,bits13=65311/u8,big,lsb,bits3=7||0|ffff;|
/write/u16,big,lsb,bits13=4097/u8,big,lsb,bits3=4/u8,big=171/u8,big,bits1=1/u8,big,bits1=0/u8,big,bits1=0/u8,big,bits5=22||0|1081ab96;|
/write/u128=340282366920938463463374607431768211455||0|ffffffffffffffffffffffffffffffff;|
/write/i128=-170141183460469231731687303715884105728||0|00000000000000000000000000000080;|
/write/i8=-0||0|00;|
/write/u8=0005||0|05;|
/write/u8,bits03=5||0|a0;|
/write/u8,bytes9=171||0|ab;|
/read/u8,big,bits4/u8,big,bits4/u16,big|69c0fe|0|6;9;49406;bits 24;|
/read/u8,big,bits4/u8,big,bits4/u16,big|69BEEF;|0|6;9;48879;bits 24;|
/read||0|bits 0;|
/read/i8,bits3|a0|0|-3;bits 3;|
/read/u8,big,bits3/u16,lsb,bits9|b001|0|5;48;bits 12;|
/read/u8,lsb,bits5/u16,lsb/u8,lsb,bits3|a13412|0|1;37285;0;bits 24;|
/read/u16,big,lsb,bits13/u8,big,lsb,bits3|ffff|0|65311;7;bits 16;|
/read/u16,big,lsb,bits13/u8,big,lsb,bits3/u8,big/u8,big,bits1/u8,big,bits1/u8,big,bits1/u8,big,bits5|1081ab96|0|4097;4;171;1;0;0;22;bits 32;|
/write/u8,big,bits4=16||1||error: Invalid param error: bit size of input is larger than requested size;
/write/u32,big,bytes2=16909060||1||error: Invalid param error: bit size of input is larger than requested size;
/write/i8,bits3=4||1||error: Invalid param error: bit size of input is larger than requested size;
/write/u16,big,lsb,bits13=4128||1||error: Invalid param error: bit size of input is larger than requested size;
/write/u8,big=300||1||error: Invalid param error: value outside type;
/write/u8=300||1||error: Invalid param error: value outside type;
/write/u8=-1||1||error: Invalid param error: value outside type;
/write/i128=170141183460469231731687303715884105728||1||error: Invalid param error: value outside type;
/write/u8,bits9=1||1||error: Invalid param error: bit size is larger than input;
/write/u8,bits18446744073709551615=1||1||error: Invalid param error: bit size is larger than input;
/write/u16,bytes3=1||1||error: Invalid param error: byte size is larger than input;
/write/i16,big,lsb,bits13=1||1||error: Invalid param error: signed big Lsb0 field of this width;
/read/u8,bits9|0000|1||error: Parse error: too much data;
/read/u16|69|1||error: Not enough data, need 16 bits (or 2 bytes);
/read/u8|6|1||error: bad hexadecimal text;
/read/u8|6g|1||error: bad hexadecimal text;
/read/u8|69;;|1||error: bad hexadecimal text;
/read/u8|69\r;|1||error: bad hexadecimal text;
/read| |1||error: bad hexadecimal text;
||2||usage: fields read|write SPEC..;
/copy||2||usage: fields read|write SPEC..;
/Write/u8=1||2||usage: fields read|write SPEC..;
/write/u9,big=1||2||usage: fields read|write SPEC..;
/write/u9=1||2||usage: fields read|write SPEC..;
/write/u8=1/u9=1||2||usage: fields read|write SPEC..;
/write/u8,bits4,big=1||2||usage: fields read|write SPEC..;
/write/u8,lsb,big=1||2||usage: fields read|write SPEC..;
/write/u8,bits4,bytes1=1||2||usage: fields read|write SPEC..;
/write/u8=340282366920938463463374607431768211456||2||usage: fields read|write SPEC..;
/read/u8=1||2||usage: fields read|write SPEC..;
/read/u8/||2||usage: fields read|write SPEC..;
/read/u8,bytes||2||usage: fields read|write SPEC..;
/read/u8,lsb,msb||2||usage: fields read|write SPEC..;
";

/// Words that are no field, one a line: the first is empty.
pub const NO_FIELDS: &str = "
u9
U8
 u8
u8,
u8,,big
u8,big,
u8, big
u8,BIG
u8,msb,big
u8,lsb,big
u8,bits4,big
u8,bits4,lsb
u8,big,little
u8,msb,lsb
u8,bits4,bits4
u8,bits4,bytes1
u8,bytes1,bits4
u8,bits
u8,bytes
u8,bits+5
u8,bytes-5
u8,bits5x
u8,bits 5
u8,bits18446744073709551616
u8,bytes18446744073709551616
";

/// Words that are no item, one a line.
pub const NO_ITEMS: &str = "u8
=5
u9=5
u8,big=
u8=+5
u8=--5
u8=-
u8=5-
u8= 5
u8=0x5
u8=5=5
u8=340282366920938463463374607431768211456
i8=340282366920938463463374607431768211456
i8=-170141183460469231731687303715884105729
";
