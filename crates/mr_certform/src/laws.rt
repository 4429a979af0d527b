//! What the definitions of certificates mean, as clauses of functions that do nothing.
ghost use Rattle.std.specs.Prelude.{List};
ghost use Rattle.mr_bytes.specs.declared.Name.{Name};
ghost use Rattle.mr_certform.specs.Laws.{StandingIsSpelled, SpelledStands, SpellingsAreApart};
ghost use Rattle.mr_certform.specs.Laws.{SpellingIsRead, EndedIsSpelled, OneCertificate};
ghost use Rattle.mr_certform.specs.Laws.{SpelledByParts, VersionIsTold, ItemsStand};
ghost use Rattle.mr_certform.specs.Laws.{ItemsAreLongest, CutByCounts, SpelledSoFarIsSpelled};
ghost use Rattle.mr_certform.specs.Packed.{PackedIsNamed};
ghost use Rattle.mr_certform.specs.Pieces.{versioned_bytes};
ghost use Rattle.mr_certform.specs.Value.{SpellsIn};

use crate::version::VersionedCertificate;
use crate::writing::{names_fit, numbers_fit, skips_fit};

/// An item is read at the front of bytes exactly if they begin with its encoding, and `End` exactly
/// if no byte is left. No item's encoding begins another's, except at the end.
pub fn item_law()
    ensures read { StandingIsSpelled }
    ensures spelled { SpelledStands }
    ensures apart { SpellingsAreApart }
{}

/// Decoding the encoding of a certificate gives its items, and bytes whose items end encode a
/// certificate. No two certificates have the same encoding. It is that of the certificate's parts
/// in order: its job, its input, its left-out records, and its groups; its magic gives the version.
pub fn certificate_law()
    ensures read { SpellingIsRead }
    ensures ended { EndedIsSpelled }
    ensures one { OneCertificate }
    ensures parts { SpelledByParts }
    ensures version { VersionIsTold }
{}

/// The items of bytes are the longest list of items in order whose encoding the bytes begin with.
pub fn items_law()
    ensures stand { ItemsStand }
    ensures longest { ItemsAreLongest }
{}

/// A list cut by counts that add up to its length gives pieces of these lengths, which joined are
/// the list again: names cut into groups, groups cut into partitions.
pub fn chunks_law()
    ensures names { CutByCounts Name }
    ensures groups { CutByCounts (List Name) }
{}

/// A number of a span means a pair of its record: so many records behind the span's first, and so
/// far behind that record's first number.
pub fn packed_law()
    ensures { PackedIsNamed }
{}

/// Bytes that encode a certificate up to its last partition encode all of it, in the same version.
pub fn pieces_law()
    ensures { SpelledSoFarIsSpelled }
{}

/// The bytes written for a certificate encode it. The loops do nothing at run time.
pub fn text_law(spelled: &VersionedCertificate<'_>)
    ensures { SpellsIn spelled.now.version (versioned_bytes spelled.now) spelled.now.certificate }
{
    let flat = spelled.flat();
    numbers_fit(flat);
    names_fit(flat.groups.names.names());
    skips_fit(&flat.header.skips);
}
