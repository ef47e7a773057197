//! Lists of literals.

ghost use Rattle.std.specs.Prelude.{IfOk};
ghost use Rattle.tt_sql.specs.trees.Lists.{IsListed};
ghost use Rattle.tt_value.specs.values.RowText.{IsPrintableValue};
ghost use Rattle.tt_sql.specs.marks.Expressions.{literal_marks};
ghost use Rattle.tt_sql.specs.grammar.Combinators.{listed};
ghost use Rattle.tt_sql.specs.grammar.Written.{literal as literal_part};
ghost use Rattle.tt_terminal.specs.Reading.{IsKnown};
ghost use Rattle.tt_terminal.specs.Readers.{ReadsList};

use sqlite_items::Items;
use std::alloc::Global;
use tt_sql::Literal;
use tt_terminal::error::ParseError;
use tt_terminal::kind::LexemeKind;
use tt_terminal::literal::literal_of;
use tt_terminal::rest::Rest;

/// The literals of a tuple or of an IN, with commas between them.
pub fn literals_of<'a>(
    alloc: Global,
    rest: Rest<'a>,
) -> Result<(Items<Literal>, Rest<'a>), ParseError>
    requires { IsKnown rest }
    ensures reads { ReadsList literal_marks (listed literal_part) rest.entry result }
    ensures given { IfOk result (λ x. IsListed (λ l. IsPrintableValue l.value) x.0) }
{
    let mut literals = Items::new(alloc);
    let mut left = rest;
    loop {
        let (part, behind) = literal_of(alloc, left)?;
        literals.push(part)?;
        let Some(next) = behind.word(LexemeKind::Comma) else {
            return Ok((literals, behind));
        };
        left = next;
    }
}
