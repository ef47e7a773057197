//! How many levels of brackets, NOTs and minuses may be open.

use crate::parsing::{assert_fault, assert_finished};
use std::process::Abort;
use std::test::Fail;

/// A front, a part so often, a middle, another part so often, and an end.
#[derive(Clone, Copy)]
struct Repeated<'a> {
    front: &'a str,
    opening: &'a str,
    middle: &'a str,
    closing: &'a str,
    end: &'a str,
}

impl Repeated<'_> {
    fn text<R: Abort + AllocGlobal>(self, rt: &R, times: u32) -> Result<Vec<u8>, Fail> {
        let mut text = self.front.as_bytes().to_vec(rt.alloc())?;
        for _ in 0..times {
            text.extend_from_slice(self.opening.as_bytes())?;
        }
        text.extend_from_slice(self.middle.as_bytes())?;
        for _ in 0..times {
            text.extend_from_slice(self.closing.as_bytes())?;
        }
        text.extend_from_slice(self.end.as_bytes())?;
        Ok(text)
    }
}

/// That 256 levels are read, and that the token that opens one more is the fault.
fn assert_levels<R: Abort + AllocGlobal>(
    rt: &R,
    repeated: Repeated<'_>,
    place: u32,
) -> Result<(), Fail> {
    let most = repeated.text(rt, 256)?;
    assert_finished(rt, &most)?;
    let more = repeated.text(rt, 257)?;
    let Ok(text) = str::from_utf8(&more) else {
        panic!(rt; "no text");
    };
    assert_fault(rt, text, place)
}

#[test]
fn brackets_open_256_levels(rt: HostRuntime) -> Result<(), Fail> {
    let predicates = Repeated {
        front: "SELECT * FROM t WHERE ",
        opening: "(",
        middle: "x = 1",
        closing: ")",
        end: "",
    };
    assert_levels(&rt, predicates, 278)?;
    let expressions = Repeated {
        front: "SELECT ",
        opening: "(",
        middle: "x",
        closing: ")",
        end: " FROM t",
    };
    assert_levels(&rt, expressions, 263)
}

#[test]
fn words_and_signs_open_256_levels(rt: HostRuntime) -> Result<(), Fail> {
    let negations = Repeated {
        front: "SELECT * FROM t WHERE ",
        opening: "NOT ",
        middle: "x = 1",
        closing: "",
        end: "",
    };
    assert_levels(&rt, negations, 1046)?;
    let minuses = Repeated {
        front: "SELECT ",
        opening: "- ",
        middle: "x",
        closing: "",
        end: " FROM t",
    };
    assert_levels(&rt, minuses, 519)?;
    // The last of 257 minuses belongs to the number.
    let number = Repeated {
        front: "SELECT - ",
        opening: "- ",
        middle: "1",
        closing: "",
        end: " FROM t",
    };
    let text = number.text(&rt, 256)?;
    assert_finished(&rt, &text)
}
