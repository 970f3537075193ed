// A recipe read for a route, with its counts, with its table: what each call that is given a recipe begins with, and the one place where line 21 is
// looked at.
#![tactic(auto)]

ghost use Rattle.std.specs.Prelude.{◌≡◌, length};
ghost use Rattle.layout.specs.RouteWords.{route_of};
ghost use Rattle.recipe.specs.Routes.{ReadFor};
ghost use Rattle.recipe.specs.Given.{LaysOut, Opens};

use base::refusal::Refusal;
use layout::{Layout, route_of};
use nest::Nest;
use reader::read;
use tables::{TABLE_WORDS, Table};

// The nest, or the first line that is true of the bytes and the route.
pub fn read_for(encoded: &[u8], route: u32) -> Result<Nest, Refusal>
    ensures { ReadFor (route_of route) encoded.now result }
{
    let nest = read(encoded)?;
    if nest.bounds > 0 && route != 0 {
        return Err(Refusal::DirectOnly);
    }
    Ok(nest)
}

// The recipe's layout, for a call that needs no message.
pub fn lay_out(encoded: &[u8], route: u32) -> Result<Layout, Refusal>
    ensures { LaysOut encoded.now route result }
{
    let nest = read_for(encoded, route)?;
    Ok(Layout::of(nest, route_of(route)))
}

// The same, with its table, in words that the caller lends for it.
pub fn open<'a>(
    encoded: &[u8],
    route: u32,
    lens: &'a mut [u16; TABLE_WORDS],
) -> Result<Table<'a>, Refusal>
    requires { length lens.old ≡ 9217 }
    ensures { Opens encoded.now route result }
{
    let layout = lay_out(encoded, route)?;
    Ok(Table::of(layout, lens))
}
