//! The lines of a reply.

ghost use Rattle.std.specs.Prelude.{◌≡◌, ◌++◌, All, OnOk, codes};
ghost use Rattle.std.specs.List.{flat_map};
ghost use Rattle.tt_value.specs.values.RowText.{IsPrintable};
ghost use Rattle.tt_plain.specs.text.Replies.{refusal_text, reply_text, row_line};
ghost use Rattle.tt_journal.specs.Contents.{contents_text};

use crate::append::{write_bytes, write_number, write_numbered, write_placed, write_signed};
use crate::line::write_named;
use std::alloc::AllocError;
use tt_history::{Content, Refusal, Reply};
use tt_script::Script;
use tt_value::{Row, write_row};

/// Appends the lines of a reply, each with its line feed.
#[tactic(auto, unfolding(tt_plain::specs::text::Replies::reply_text))]
pub fn write_reply(program: &Script, reply: &Reply, out: &mut Vec<u8>) -> Result<(), AllocError>
    ensures ok { OnOk result (out.new.items ≡ out.old.items ++ reply_text program.now reply.now) }
{
    match reply {
        Reply::Ok => write_bytes(b"= ok\n", out)?,
        Reply::Inserted(count) => {
            write_numbered(b"= ", *count, out)?;
            write_bytes(b" inserted\n", out)?;
        }
        Reply::Updated(count) => {
            write_numbered(b"= ", *count, out)?;
            write_bytes(b" updated\n", out)?;
        }
        Reply::Deleted(count) => {
            write_numbered(b"= ", *count, out)?;
            write_bytes(b" deleted\n", out)?;
        }
        Reply::Rows(shared) => {
            let rows = shared.rows();
            write_rows(rows, out)?;
            write_bytes(b"= ", out)?;
            write_number(rows.len() as u64, out)?;
            write_bytes(b" rows\n", out)?;
        }
        Reply::Refused(refusal) => {
            write_bytes(b"! ", out)?;
            write_refusal(program, *refusal, out)?;
            write_bytes(b"\n", out)?;
        }
        Reply::Memory => write_bytes(b"! memory\n", out)?,
    }
    Ok(())
}

fn write_rows(rows: &[Row], out: &mut Vec<u8>) -> Result<(), AllocError>
    requires { All IsPrintable rows.now }
    ensures ok { OnOk result (out.new.items ≡ out.old.items ++ flat_map row_line rows.now) }
{
    for row in rows {
        write_row_line(row, out)?;
    }
    Ok(())
}

fn write_row_line(row: &Row, out: &mut Vec<u8>) -> Result<(), AllocError>
    requires { IsPrintable row.now }
    ensures ok { OnOk result (out.new.items ≡ out.old.items ++ row_line row.now) }
{
    write_bytes(b": ", out)?;
    write_row(row, out)?;
    write_bytes(b"\n", out)?;
    Ok(())
}

fn write_refusal(program: &Script, refusal: Refusal, out: &mut Vec<u8>) -> Result<(), AllocError>
    ensures ok { OnOk result (out.new.items ≡ out.old.items ++ refusal_text program.now refusal) }
{
    let line = refusal.line();
    write_number(u64::from(line.number), out)?;
    write_bytes(b" ", out)?;
    write_bytes(line.name.as_bytes(), out)?;
    write_content(program, line.content, out)?;
    Ok(())
}

fn write_content(program: &Script, content: Content, out: &mut Vec<u8>) -> Result<(), AllocError>
    ensures ok { OnOk result (out.new.items ≡ out.old.items ++ contents_text program.now content) }
{
    match content {
        Content::Nothing => Ok(()),
        Content::Number(number) => write_numbered(b" ", number, out),
        Content::Signed(number) => write_signed(b" ", number, out),
        Content::Session(session) => write_named(b" ", program, session, out),
        Content::Pair(first, second) => {
            write_placed(b" ", first, out)?;
            write_placed(b" ", second, out)
        }
    }
}
