//! Rows of parts: a sign stands between the rows, and another between the parts of a row.

ghost use Rattle.std.specs.Prelude.{◌≡◌, List, Option};
ghost use Rattle.gp_tokens.specs.declared.token.Token.{Token};
ghost use Rattle.gp_tokens.specs.Cursor.{Reads, ReadsAs, IsReading};
ghost use Rattle.gp_tokens.specs.Reading.{made, separated};
ghost use Rattle.gp_expressions.specs.inside.Rows.{IsMaking};

use gp_tokens::{ReadError, Tokens, Want, separated_by};
use std::alloc::{AllocError, Global};

/// The rows: the sign between their parts, how a part is read inside what is given, and what is made of a row.
#[derive(Copy)]
pub(crate) struct Row<C, F, G> {
    pub(crate) sign: Want,
    pub(crate) inside: C,
    pub(crate) read: F,
    pub(crate) make: G,
}

impl<C: Copy, F: Copy, G: Copy> Clone for Row<C, F, G> {
    fn clone(&self) -> Result<Row<C, F, G>, AllocError> {
        Ok(*self)
    }
}

fn read_row<
    C: Copy,
    T: Drop,
    U: Drop,
    F: Copy + FnOnce(&mut Tokens<'_, '_>, C) -> Result<T, ReadError>,
    G: Copy + FnOnce(Global, Vec<T>) -> Result<U, ReadError>,
>(tokens: &mut Tokens<'_, '_>, row: Row<C, F, G>) -> Result<U, ReadError>
    requires reads { (ts : _) → F.pre row.read ts row.inside }
    requires makes { (alloc : _) (parts : _) → G.pre row.make alloc parts }
    ensures { (one : List Token → Option (T × List Token)) (make : List T → U) → IsReading (F.post row.read) row.inside one → IsMaking (λ parts. parts.items) (G.post row.make) make → Reads (made make (separated row.sign one) tokens.old) result tokens.new }
{
    let parts = separated_by(tokens, row.sign, row.inside, row.read)?;
    let make = row.make;
    make(tokens.alloc(), parts)
}

/// What is made of each row, with this sign between the rows.
pub(crate) fn read_rows<
    C: Copy,
    T: Drop,
    U: Drop,
    F: Copy + FnOnce(&mut Tokens<'_, '_>, C) -> Result<T, ReadError>,
    G: Copy + FnOnce(Global, Vec<T>) -> Result<U, ReadError>,
>(tokens: &mut Tokens<'_, '_>, sign: Want, row: Row<C, F, G>) -> Result<Vec<U>, ReadError>
    requires reads { (ts : _) → F.pre row.read ts row.inside }
    requires makes { (alloc : _) (parts : _) → G.pre row.make alloc parts }
    ensures { (one : List Token → Option (T × List Token)) (make : List T → U) (all : List Token → Option (U × List Token)) → IsReading (F.post row.read) row.inside one → IsMaking (λ parts. parts.items) (G.post row.make) make → ((ts : List Token) → all ts ≡ made make (separated row.sign one) ts) → ReadsAs (λ v. v.items) (separated sign all tokens.old) result tokens.new }
{
    separated_by(tokens, sign, row, |tokens, row| read_row(tokens, row))
}
