//! The moments at which tables are read.
#![tactic(auto, unfolding(crate::specs::text::Words::spaced))]

ghost use Rattle.std.specs.Prelude.{◌≡◌, ◌∷◌, [], map, OnOk, IsTrue, codes, ◌<◌};
ghost use Rattle.tt_value.specs.calendar.Calendar.{timestamp_text};
ghost use Rattle.tt_print.specs.text.Words.{separated, number_words, Writes, Adds};
ghost use Rattle.tt_print.specs.text.Queries.{side_word, timestamp_words, offset_words, id_words, moment_words, is_moment as moment_test, since_year_one as milliseconds_since, clock_of_day, timestamp_since, moment_bytes, moment_word, clause_words};
ghost use Rattle.tt_sql.specs.trees.Leaves.{IsMoment};

use crate::words::{write_if, write_number, write_quoted, write_word};
use std::alloc::AllocError;
use tt_sql::{Clause, Moment, Offset, Side};
use tt_value::{Number, Quoted, write_date};

/// Writes AT or BEFORE, and the moment in brackets.
pub fn write_clause(clause: &Clause, out: &mut Vec<u8>) -> Result<(), AllocError>
    ensures ok { OnOk result (Writes out.old out.new (clause_words clause.now)) }
{
    write_side(clause.side, out)?;
    write_word(b"(", out)?;
    write_moment(&clause.moment, out)?;
    write_word(b")", out)?;
    Ok(())
}

fn write_side(side: Side, out: &mut Vec<u8>) -> Result<(), AllocError>
    ensures ok { OnOk result (Writes out.old out.new (side_word side ∷ [])) }
{
    match side {
        Side::At => write_word(b"AT", out),
        Side::Before => write_word(b"BEFORE", out),
    }
}

fn write_moment(moment: &Moment, out: &mut Vec<u8>) -> Result<(), AllocError>
    ensures ok { OnOk result (Writes out.old out.new (moment_words moment.now)) }
{
    match moment {
        Moment::Timestamp(moment) => write_timestamp(*moment, out),
        Moment::Offset(offset) => write_offset(offset, out),
        Moment::Statement(id) => write_id(id, out),
    }
}

fn write_timestamp(moment: i64, out: &mut Vec<u8>) -> Result<(), AllocError>
    ensures ok { OnOk result (Writes out.old out.new (timestamp_words moment)) }
{
    write_arrow(b"TIMESTAMP", out)?;
    write_moment_word(moment, out)?;
    Ok(())
}

/// Writes the word and an arrow.
fn write_arrow(word: &[u8], out: &mut Vec<u8>) -> Result<(), AllocError>
    ensures ok { OnOk result (Writes out.old out.new (word.now ∷ codes "=>" ∷ [])) }
{
    write_word(word, out)?;
    write_word(b"=>", out)?;
    Ok(())
}

fn write_offset(offset: &Offset, out: &mut Vec<u8>) -> Result<(), AllocError>
    ensures ok { OnOk result (Writes out.old out.new (offset_words offset.now)) }
{
    write_word(b"OFFSET", out)?;
    write_word(b"=>", out)?;
    write_if(offset.negative, b"-", out)?;
    write_factors(offset.factors.as_slice(), out)?;
    Ok(())
}

fn write_id(id: &Quoted, out: &mut Vec<u8>) -> Result<(), AllocError>
    ensures ok { OnOk result (Writes out.old out.new (id_words id.now)) }
{
    write_word(b"STATEMENT", out)?;
    write_word(b"=>", out)?;
    write_quoted(id, out)?;
    Ok(())
}

fn write_factors(factors: &[Number], out: &mut Vec<u8>) -> Result<(), AllocError>
    ensures ok { OnOk result (Writes out.old out.new
        (separated (codes "*") (map number_words factors.now))) }
{
    let Some((first, others)) = factors.split_first() else {
        return Ok(());
    };
    write_number(first, out)?;
    for factor in others {
        write_word(b"*", out)?;
        write_number(factor, out)?;
    }
    Ok(())
}

fn write_moment_word(moment: i64, out: &mut Vec<u8>) -> Result<(), AllocError>
    ensures ok { OnOk result (Writes out.old out.new (moment_word moment ∷ [])) }
{
    out.extend_from_slice(b" '")?;
    write_moment_bytes(moment, out)?;
    out.push(b'\'')?;
    Ok(())
}

fn write_moment_bytes(moment: i64, out: &mut Vec<u8>) -> Result<(), AllocError>
    ensures ok { OnOk result (Adds out.old out.new (moment_bytes moment)) }
{
    if is_moment(moment) {
        write_since(since_year_one(moment), out)?;
    }
    Ok(())
}

/// Whether it is a moment of the years 1 to 9999.
fn is_moment(moment: i64) -> bool
    ensures value { result ≡ moment_test moment }
    ensures within { IsTrue result → IsMoment moment }
{
    -62_135_596_800_000 <= moment && moment <= 253_402_300_799_999
}

fn since_year_one(moment: i64) -> u64
    requires { IsMoment moment }
    ensures value { result ≡ milliseconds_since moment }
    ensures within { result < 315537897600000 }
{
    (moment + 62_135_596_800_000).unsigned_abs()
}

fn write_since(since: u64, out: &mut Vec<u8>) -> Result<(), AllocError>
    requires { since < 315537897600000 }
    ensures ok { OnOk result (Adds out.old out.new (timestamp_text (timestamp_since since))) }
{
    let of_day = (since % 86_400_000) as u32;
    write_date((since / 86_400_000) as i32 - 719_162, out)?;
    out.extend_from_slice(&clock_bytes(of_day))?;
    Ok(())
}

/// The bytes ` HH:MM:SS.mmm` of a millisecond of a day.
fn clock_bytes(of_day: u32) -> [u8; 13]
    requires { of_day < 86400000 }
    ensures { result ≡ 32 ∷ clock_of_day of_day }
{
    let hour = (of_day / 3_600_000) as u8;
    let minute = (of_day / 60_000 % 60) as u8;
    let second = (of_day / 1000 % 60) as u8;
    [
        b' ',
        b'0' + hour / 10,
        b'0' + hour % 10,
        b':',
        b'0' + minute / 10,
        b'0' + minute % 10,
        b':',
        b'0' + second / 10,
        b'0' + second % 10,
        b'.',
        b'0' + (of_day / 100 % 10) as u8,
        b'0' + (of_day / 10 % 10) as u8,
        b'0' + (of_day % 10) as u8,
    ]
}
