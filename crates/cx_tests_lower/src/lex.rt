use cx_base::TokenKind;
use cx_lex::{LexFault, lex};
use std::alloc::Global;
use std::process::Abort;
use std::test::Fail;

/// The tokens of the text as they are spelled, with a space between two.
fn spelled(rt: &impl Abort, alloc: Global, text: &str) -> Result<String, Fail> {
    assert!(rt; text.len() <= 1000);
    let mut all = String::new(alloc);
    for token in lex(alloc, text.as_bytes())?.as_slice() {
        if !all.is_empty() {
            all.push(' ')?;
        }
        match text.get(token.span.first as usize..token.span.past as usize) {
            Some(spelling) => all.push_str(spelling)?,
            None => all.push_str("?")?,
        }
    }
    Ok(all)
}

/// Whether reading the text stops with this fault.
fn stops(rt: &impl Abort, alloc: Global, text: &[u8], fault: LexFault) -> bool {
    assert!(rt; text.len() <= 1000);
    match lex(alloc, text) {
        Ok(_) => false,
        Err(found) => found == fault,
    }
}

#[test]
fn tokens(rt: HostRuntime) -> Result<(), Fail> {
    let table = [
        ("", ""),
        ("x+++y", "x ++ + y"),
        ("x++ +y", "x ++ + y"),
        ("a->b - > c", "a -> b - > c"),
        ("<<<= >>>= <== =!=", "<< <= >> >= <= = = !="),
        ("<<= >>= <<<", "<<= >>= << <"),
        (".... .. .5 ..5 a.b", "... . . . .5 . .5 a . b"),
        ("&&&=|||=^=~", "&& &= || |= ^= ~"),
        (
            "1e+5 0x1p-3 .5 1..2 1e +5 1f+5",
            "1e+5 0x1p-3 .5 1..2 1e + 5 1f + 5",
        ),
        ("0x1e+1", "0x1e+1"),
        ("$a a$ 1$ _1", "$a a$ 1 $ _1"),
        ("'\\'' \"a\\\"b\" '\"' \"'\"", "'\\'' \"a\\\"b\" '\"' \"'\""),
        ("\"\\\\\"x", "\"\\\\\" x"),
        ("\"/*\"//\"\n'//'", "\"/*\" '//'"),
        // comments
        ("a/**/b/***/c/*/*/d", "a b c d"),
        ("a//b\nc", "a c"),
        ("a//b\\\nc", "a c"),
        ("a/b/ *c*/d", "a / b / * c * / d"),
        ("\"\u{e9}\" /*\u{e9}*/", "\"\u{e9}\""),
        // lines that begin with #
        ("# 1 \"a.c\"\nint x;\n# 2 \"a.c\" 3\ny", "int x ; y"),
        (" \t# 1 \"a.c\n\tx", "x"),
        ("# 1 \"f.c\" /* a */\nx", "x"),
        ("#if \\ a\nx", "x"),
        // pragmas that change no layout
        (
            "#pragma once\n#pragma STDC FP_CONTRACT OFF\n#pragma message \"x\"\nx",
            "x",
        ),
        (
            "#pragma GCC diagnostic push\n#pragma clang diagnostic push\nx",
            "x",
        ),
        ("#pragma GCC /**/ unroll 8\n#pragma once// pack(1)\nx", "x"),
        ("#pack\n#pragmas pack\nx", "x"),
        ("_Pragmas p_Pragma", "_Pragmas p_Pragma"),
    ];
    for (text, expected) in table {
        let found = spelled(&rt, rt.alloc(), text)?;
        assert_eq!(rt; found.as_str(), expected);
    }
    Ok(())
}

#[test]
fn kinds(rt: HostRuntime) -> Result<(), Fail> {
    let tokens = lex(rt.alloc(), b"a 1 'b' \"c\" ;")?;
    let kinds = [
        TokenKind::Name,
        TokenKind::Number,
        TokenKind::Char,
        TokenKind::Text,
        TokenKind::Punct,
    ];
    assert_eq!(rt; tokens.len(), 5);
    for (token, kind) in tokens.as_slice().iter().zip(kinds) {
        assert!(rt; token.kind == kind);
    }
    Ok(())
}

#[test]
fn faults(rt: HostRuntime) {
    let alloc = rt.alloc();
    assert!(rt; stops(&rt, alloc, b"a\n\"b", LexFault::OpenText(2)));
    assert!(rt; stops(&rt, alloc, b"a\n\"b\n\"", LexFault::OpenText(2)));
    assert!(rt; stops(&rt, alloc, b"'\\'", LexFault::OpenText(0)));
    assert!(rt; stops(&rt, alloc, b"@", LexFault::BadByte(0)));
    assert!(rt; stops(&rt, alloc, b"a `", LexFault::BadByte(2)));
    assert!(rt; stops(&rt, alloc, b"a\\\nb", LexFault::BadByte(1)));
    assert!(rt; stops(&rt, alloc, b"x \x80", LexFault::BadByte(2)));
    assert!(rt; stops(&rt, alloc, b"\x00", LexFault::BadByte(0)));
    assert!(rt; stops(&rt, alloc, b"x /*", LexFault::OpenComment(2)));
    assert!(rt; stops(&rt, alloc, b"/*/", LexFault::OpenComment(0)));
    assert!(rt; stops(&rt, alloc, b"@ /*", LexFault::BadByte(0)));
    assert!(rt; stops(&rt, alloc, b"a<:1:>", LexFault::BadByte(1)));
    assert!(rt; stops(&rt, alloc, b"a :>", LexFault::BadByte(2)));
    assert!(rt; stops(&rt, alloc, b"<%", LexFault::BadByte(0)));
    assert!(rt; stops(&rt, alloc, b"a %> b", LexFault::BadByte(2)));
    assert!(rt; stops(&rt, alloc, b"%: 1", LexFault::BadByte(0)));
}

#[test]
fn directives(rt: HostRuntime) {
    let table: [(&[u8], u32); 25] = [
        (b"x\n#pragma pack(1)\n", 2),
        (b" # pragma\tpack", 1),
        (b"#pragma", 0),
        (b"#pragma packed", 0),
        (b"#pragma/**/pack(1)", 0),
        (b"# /* c */ pragma pack(1)", 0),
        (b"#pragma // once", 0),
        (b"#pragma GCC", 0),
        (b"#pragma GCC optimize(\"short-enums\")", 0),
        (b"#pragma GCC pack", 0),
        (b"#pragma clang attribute push", 0),
        (b"#pragma ms_struct on", 0),
        (b"#pragma options align=packed", 0),
        (b"#pragma scalar_storage_order big-endian", 0),
        (b"x _Pragma(\"pack(1)\")", 2),
        (b"+_Pragma", 1),
        // lines that go on
        (b"# 1 \\\nx", 0),
        (b"# 1 \\ \t\nx", 0),
        (b"#if /* a\nb */ c", 0),
        (b"# 1 /*/", 0),
        // a # that begins no line
        (b"/**/ #pragma pack(1)", 5),
        (b"\x0b# 1", 1),
        (b"x # 1", 2),
        (b"/*\n*/# 1", 5),
        (b"\"a\\\n\"# 1", 5),
    ];
    for (text, at) in table {
        assert!(rt; stops(&rt, rt.alloc(), text, LexFault::BadByte(at)));
    }
}
