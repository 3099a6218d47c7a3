//! Words of fields with names in front of them.

use deku_fields::parse_field;
use deku_picture::parse_named;
use std::test::Fail;

#[test]
fn names_fields(rt: HostRuntime) -> Result<(), Fail> {
    let rows: [(&str, &str, &str); 6] = [
        ("u8", "", "u8"),
        ("u16,big,lsb,bits13", "", "u16,big,lsb,bits13"),
        ("kind:u8,big,bits4", "kind", "u8,big,bits4"),
        ("u8:u8", "u8", "u8"),
        ("Az09_-:i8", "Az09_-", "i8"),
        ("-:u8,bits0", "-", "u8,bits0"),
    ];
    for (word, name, spec) in rows {
        let named = parse_named(word).ok_or("no field")?;
        assert!(&rt; named.name == name, "{word:?}: its name");
        assert!(&rt; named.spec == spec, "{word:?}: its word");
        assert!(&rt;
            parse_field(spec) == Some(named.field),
            "{word:?}: its field"
        );
    }
    Ok(())
}

#[test]
fn names_no_other_field(rt: HostRuntime) -> Result<(), Fail> {
    let rows = [
        "",
        ":",
        "u9",
        ":u8",
        "a:",
        "a:u9",
        "a:b:u8",
        "u8:",
        "a b:u8",
        "a,b:u8",
        "a\n:u8",
        "\u{e4}:u8",
        "a: u8",
        "a::u8",
        "--svg",
    ];
    for word in rows {
        assert!(&rt; parse_named(word).is_none(), "{word:?}: a field");
    }
    Ok(())
}
