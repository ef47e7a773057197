//! The tokens of texts, and the faults of texts that have none.

use std::alloc::{AllocError, Global};
use std::process::Abort;
use std::test::Fail;
use tt_lex::LexFault::{BackslashInText, BadByte, TextTooLong, UnclosedComment, UnclosedText};
use tt_lex::TokenKind::{Number, Quoted, Sign, Word};
use tt_lex::{LexFault, Token, TokenKind, TokensError, tokens};

/// What the tokens of a text are, as starts, ends and kinds.
fn assert_tokens<R: Abort + AllocGlobal>(
    rt: &R,
    text: &str,
    wanted: &[(u32, u32, TokenKind)],
) -> Result<(), Fail> {
    assert!(rt; text.len() < 1_000_000);
    let found = tokens(rt.alloc(), text).ok().ok_or("a fault")?;
    assert_eq!(rt; found.len(), wanted.len(), "in {text}");
    for (token, want) in found.iter().zip(wanted) {
        let (start, end, kind) = *want;
        assert!(rt; *token == Token { start, end, kind }, "{start} in {text}");
    }
    Ok(())
}

/// That a text has this fault.
fn assert_fault<R: Abort + AllocGlobal>(rt: &R, text: &str, wanted: LexFault) {
    assert!(rt; text.len() < 1_000_000);
    match tokens(rt.alloc(), text) {
        Ok(_) => panic!(rt; "no fault in {text}"),
        Err(fault) => assert!(rt; fault == TokensError::Lex(wanted), "in {text}"),
    }
}

#[test]
fn each_kind_of_token_is_divided_off(rt: HostRuntime) -> Result<(), Fail> {
    assert_tokens(&rt, "", &[])?;
    assert_tokens(&rt, " \t\r\n", &[])?;
    assert_tokens(&rt, "a", &[(0, 1, Word)])?;
    assert_tokens(&rt, "_x9$ b", &[(0, 4, Word), (5, 6, Word)])?;
    assert_tokens(&rt, "SYSTEM$WAIT", &[(0, 11, Word)])?;
    assert_tokens(&rt, "007", &[(0, 3, Number)])?;
    assert_tokens(&rt, "1a", &[(0, 1, Number), (1, 2, Word)])?;
    assert_tokens(&rt, "''", &[(0, 2, Quoted)])?;
    assert_tokens(&rt, "''''", &[(0, 4, Quoted)])?;
    assert_tokens(&rt, "'o''clock'", &[(0, 10, Quoted)])?;
    assert_tokens(&rt, "'a' 'b'", &[(0, 3, Quoted), (4, 7, Quoted)])?;
    Ok(())
}

#[test]
fn the_longest_sign_is_taken(rt: HostRuntime) -> Result<(), Fail> {
    assert_tokens(
        &rt,
        "(),.;*+-=",
        &[
            (0, 1, Sign),
            (1, 2, Sign),
            (2, 3, Sign),
            (3, 4, Sign),
            (4, 5, Sign),
            (5, 6, Sign),
            (6, 7, Sign),
            (7, 8, Sign),
            (8, 9, Sign),
        ],
    )?;
    assert_tokens(
        &rt,
        "<>!=<=>==>::",
        &[
            (0, 2, Sign),
            (2, 4, Sign),
            (4, 6, Sign),
            (6, 8, Sign),
            (8, 10, Sign),
            (10, 12, Sign),
        ],
    )?;
    assert_tokens(
        &rt,
        "< > = ><",
        &[
            (0, 1, Sign),
            (2, 3, Sign),
            (4, 5, Sign),
            (6, 7, Sign),
            (7, 8, Sign),
        ],
    )?;
    assert_tokens(&rt, "<<>", &[(0, 1, Sign), (1, 3, Sign)])?;
    Ok(())
}

#[test]
fn tokens_need_no_white_space_between(rt: HostRuntime) -> Result<(), Fail> {
    assert_tokens(
        &rt,
        "x=1,'a'<>y",
        &[
            (0, 1, Word),
            (1, 2, Sign),
            (2, 3, Number),
            (3, 4, Sign),
            (4, 7, Quoted),
            (7, 9, Sign),
            (9, 10, Word),
        ],
    )
}

#[test]
fn comments_are_left_out(rt: HostRuntime) -> Result<(), Fail> {
    assert_tokens(&rt, "a--b", &[(0, 1, Word)])?;
    assert_tokens(&rt, "--", &[])?;
    assert_tokens(&rt, "--\na", &[(3, 4, Word)])?;
    assert_tokens(
        &rt,
        "-- é 'x\n- -1",
        &[(9, 10, Sign), (11, 12, Sign), (12, 13, Number)],
    )?;
    assert_tokens(&rt, "a/*/**/b", &[(0, 1, Word), (7, 8, Word)])?;
    assert_tokens(&rt, "/* /* */*", &[(8, 9, Sign)])?;
    assert_tokens(&rt, "'--'/* ' */", &[(0, 4, Quoted)])?;
    Ok(())
}

#[test]
fn characters_beyond_ascii_stand_in_texts_and_comments_alone(rt: HostRuntime) -> Result<(), Fail> {
    assert_tokens(&rt, "'é€'", &[(0, 7, Quoted)])?;
    assert_tokens(&rt, "/*é*/'é'--é", &[(6, 10, Quoted)])?;
    assert_fault(&rt, "aé", BadByte(1));
    assert_fault(&rt, "é", BadByte(0));
    assert_fault(&rt, "\u{a0}", BadByte(0));
    Ok(())
}

#[test]
fn each_fault_has_its_place(rt: HostRuntime) {
    assert_fault(&rt, "a !b", BadByte(2));
    assert_fault(&rt, "a:b", BadByte(1));
    assert_fault(&rt, "/", BadByte(0));
    assert_fault(&rt, "a/b", BadByte(1));
    assert_fault(&rt, "/* /* */ */", BadByte(10));
    assert_fault(&rt, "$a", BadByte(0));
    assert_fault(&rt, "\"a\"", BadByte(0));
    assert_fault(&rt, "\\", BadByte(0));
    assert_fault(&rt, "'a\nb'", BadByte(2));
    assert_fault(&rt, "'\u{7f}'", BadByte(1));
    assert_fault(&rt, "x = 'ab\\c'", BackslashInText(7));
    assert_fault(&rt, "'a''\\'", BackslashInText(4));
    assert_fault(&rt, "a 'b", UnclosedText(2));
    assert_fault(&rt, "'", UnclosedText(0));
    assert_fault(&rt, "'''", UnclosedText(0));
    assert_fault(&rt, "'a''b", UnclosedText(0));
    assert_fault(&rt, "a /* b", UnclosedComment(2));
    assert_fault(&rt, "/*/", UnclosedComment(0));
}

#[test]
fn the_first_fault_from_the_left_is_given(rt: HostRuntime) {
    assert_fault(&rt, "! '", BadByte(0));
    assert_fault(&rt, "' !", UnclosedText(0));
    assert_fault(&rt, "'\n\\", UnclosedText(0));
    assert_fault(&rt, "'\n\\'", BadByte(1));
    assert_fault(&rt, "'\\\n'", BackslashInText(1));
    assert_fault(&rt, "'\\' /*", BackslashInText(1));
}

/// A quoted text of so many letters, and a doubled quote.
fn long_text(alloc: Global, letters: usize) -> Result<String, AllocError> {
    let mut text = String::from_str(alloc, "'")?;
    for _ in 0..letters {
        text.push('x')?;
    }
    text.push_str("'''")?;
    Ok(text)
}

#[test]
fn a_text_has_at_most_65535_bytes_with_quotes_joined(rt: HostRuntime) -> Result<(), Fail> {
    let longest = long_text(rt.alloc(), 65_534)?;
    assert_tokens(&rt, longest.as_str(), &[(0, 65_538, Quoted)])?;
    let too_long = long_text(rt.alloc(), 65_535)?;
    assert_fault(&rt, too_long.as_str(), TextTooLong(0));
    Ok(())
}
