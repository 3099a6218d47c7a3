//! The program's runs, one a line: the words, the input, the status, what is printed and what is
//! complained of, with bars between them. Each word has a slash in front of it, and a semicolon is
//! a newline. The packets, the files and the instruction words, and what they say, are those of the
//! tests of the formats; the options have four numbers more.

pub const RUNS: &str =
    "/udp|9cbbd11f000afe1d6869;|0|source 40123;destination 53535;length 10;checksum 65053;same;left 2;|
/ipv4|4500001e4f0b40004011edc17f0000017f000001|0|version 4;words 5;service 0;congestion 0;total 30;identification 20235;reserved 0;keep_whole 1;more 0;offset 0;hops 64;protocol 17;checksum 60865;source 127.0.0.1;destination 127.0.0.1;same;left 0;|
/ipv4|46C0002800004000010203FA00000000E000001694040000|0|version 4;words 6;service 48;congestion 0;total 40;identification 0;reserved 0;keep_whole 1;more 0;offset 0;hops 1;protocol 2;checksum 1018;source 0.0.0.0;destination 224.0.0.22;option 148;option 4;option 0;option 0;same;left 0;|
/can|445dfb2e05fe7960;|0|wheel -700;gear 5;torque -1234;flags 5;padding 0;yaw -100000;same;left 0;|
/ccsds|0123c02a000a00400bfffff80200000000ff|0|version 0;kind 0;secondary 0;application 291;grouping 3;count 42;length 10;voltage 1;current 2;voltage 1023;current 4095;voltage 512;current 2048;voltage 0;current 0;same;left 1;|
/png|89504e470d0a1a0a0000000d49484452000002600000011308020000001e572d75|0|width 608;height 275;depth 8;colour 2;compression 0;filter 0;interlace 0;crc 509029749;same;left 0;|
/dns|50650100000100000000000003777777076578616d706c6503636f6d0000010001|0|identification 20581;response 0;opcode 0;authoritative 0;truncated 0;recursion_desired 1;recursion_available 0;reserved 0;response_code 0;questions 1;answers 0;authorities 0;additionals 0;name www.example.com.;kind 1;class 1;same;left 0;|
/dns|0000000000010000000000000361205c00000200010c|0|identification 0;response 0;opcode 0;authoritative 0;truncated 0;recursion_desired 0;recursion_available 0;reserved 0;response_code 0;questions 1;answers 0;authorities 0;additionals 0;name a\\032\\092.;kind 2;class 1;same;left 1;|
/elf|7f454c4602010100000000000000000003003e0001000000d0230000000000004000000000000000908300000000000000000000400038000d0040001f001e00|0|endian little;identification 1;abi 0;abi_version 0;padding 0;padding 0;padding 0;padding 0;padding 0;padding 0;padding 0;kind 3;machine 62;version 1;entry 9168;segments_at 64;sections_at 33680;flags 0;header_size 64;segment_size 56;segment_count 13;section_size 64;section_count 31;section_names 30;same;left 0;|
/riscv|8327c4fe|0|kind load;target 15;function 2;base 8;value -20;same;left 0;|
/riscv|0f00f00f|0|kind fence;target 0;function 0;base 0;value 255;same;left 0;|
/riscv|130101fe|0|kind op-imm;target 2;function 0;base 2;value -32;same;left 0;|
/riscv|97210000|0|kind auipc;target 3;value 2;same;left 0;|
/riscv|232614FE|0|kind store;low 12;function 2;base 8;source 1;high -1;offset -20;same;left 0;|
/riscv|b3027300|0|kind op;target 5;function 0;first 6;second 7;variant 0;same;left 0;|
/riscv|37553412|0|kind lui;target 10;value 74565;same;left 0;|
/riscv|e39c02fe|0|kind branch;top 1;low 12;function 1;first 5;second 0;middle 63;sign -1;halves -4;same;left 0;|
/riscv|e7000301|0|kind jalr;target 1;function 0;base 6;value 16;same;left 0;|
/riscv|ef000080|0|kind jal;target 1;high 0;middle 0;low 0;sign -1;halves -524288;same;left 0;|
/riscv|6ff0ffff|0|kind jal;target 0;high 255;middle 1;low 1023;sign -1;halves -1;same;left 0;|
/riscv|73000000ff|0|kind system;target 0;function 0;base 0;value 0;same;left 1;|
|zz|0|can;ccsds;dns;elf;ipv4;png;riscv;udp;|
/--help|zz|0|formats         prints the names of the formats;formats NAME    reads hexadecimal text, prints the fields of the record that it begins with,;                writes them back, and says whether that is what was read;formats --help  prints this;|
/elf64|zz|2||usage: formats [NAME];
/UDP|zz|2||usage: formats [NAME];
/udp |zz|2||usage: formats [NAME];
/|zz|2||usage: formats [NAME];
/udp/can|zz|2||usage: formats [NAME];
/-h|zz|2||usage: formats [NAME];
/udp|9cbbd11|1||error: bad hexadecimal text;
/udp|9c bb|1||error: bad hexadecimal text;
/udp|9cbb;;|1||error: bad hexadecimal text;
/udp||1||error: Not enough data, need 16 bits (or 2 bytes), in source, at bit 0;
/udp|9cbbd1|1||error: Not enough data, need 16 bits (or 2 bytes), in destination, at bit 16;
/ipv4|6500|1||error: version, in version, at bit 4;
/ipv4|4400001e4f0b40004011edc17f0000017f000001|1||error: Parse error: head without a count, in words, at bit 160;
/can|445dfb2e05fe|1||error: Not enough data, need 24 bits (or 3 bytes), in yaw, at bit 40;
/ccsds|0123c02a000b00|1||error: Parse error: head without a count, in length, at bit 48;
/png|89504e470a1a0a00|1||error: signature, in signature, at bit 64;
/dns|506501000001000000000000c00c00010001|1||error: Parse error: head without a count, in question, at bit 104;
/elf|4d5a|1||error: Not enough data, need 32 bits (or 4 bytes), in magic, at bit 0;
/elf|7f454c4601|1||error: class, in class, at bit 40;
/elf|7f454c460203|1||error: Could not resolve `id` for variant, in endian, at bit 48;
/riscv|07000000|1||error: Could not resolve `id` for variant, in code, at bit 7;
/riscv|2326|1||error: Not enough data, need 5 bits (or 1 bytes), in operands, at bit 15;
";
