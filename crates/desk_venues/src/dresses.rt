//! What the messages for each venue carry beside.

ghost use Rattle.std.specs.Prelude.{◌≡◌, length, map, IfOk};
ghost use Rattle.desk_venues.specs.Dresses.{tagged, venue_dress};

use desk_config::Venue;
use dialect::Extra;
use dressed_link::{Dress, Secret};
use fix_text::Field;
use std::alloc::{AllocError, Global};

/// Copies of the fields of a venue's table.
fn fields_of(alloc: Global, table: &[Extra]) -> Result<Vec<Field>, AllocError>
    ensures { IfOk result (λ fields. fields.items ≡ map tagged table.now) }
{
    let mut fields = Vec::new(alloc);
    for field in table {
        fields.push(Field::from_slice(alloc, field.tag, field.value.as_slice())?)?;
    }
    Ok(fields)
}

/// What the messages for a venue carry beside, with this password.
pub fn venue_dress(
    alloc: Global,
    venue: &Venue,
    secret: Option<Secret>,
) -> Result<Dress, AllocError>
    ensures { IfOk result (λ dress. dress ≡ venue_dress venue.now secret) }
{
    let header = fields_of(alloc, venue.dress.header())?;
    let logon = fields_of(alloc, venue.dress.logon())?;
    Ok(Dress::new(header, logon, secret))
}

/// No password, of so many venues.
pub fn no_secrets(alloc: Global, count: usize) -> Result<Vec<Option<Secret>>, AllocError>
    ensures { IfOk result (λ secrets. length secrets.items ≡ count) }
{
    let mut secrets = Vec::new(alloc);
    for _ in 0..count {
        secrets.push(None)?;
    }
    Ok(secrets)
}
