// The signed part's content: maybe the version, then responder id, producedAt, entries, maybe extensions.
ghost use Rattle.std.specs.Prelude.{◌≡◌};
ghost use Rattle.layout.proofs.Format.{signed_fields, signed_body};
ghost use Rattle.read_basic.specs.Views.{responses_on, produced_on, version_step, listed_of, produced_of, inside_fields, inside_signed};

use crate::Inside;
use codec::Step;
use element::Misfit;

// Where the entries are, counted from a part's start.
#[derive(Clone, Copy, Debug, PartialEq, Eq)]
pub struct Listed {
    // Where they start.
    pub start: usize,
    // How many octets they have.
    pub len: usize,
    // How many they are.
    pub count: usize,
}

// A sequence of entries, then maybe extensions.
#[tactic(auto, using(crate::proofs::ListCases::list_cases))]
fn entries_and_more(s: &[u8]) -> Result<Listed, Misfit>
    ensures { result ≡ listed_of (responses_on.dec s.now) }
{
    let held = read_content::expect(s, 0x30)?;
    let start = held.start;
    let end = start + held.len;
    let count = read_entry::read_entries(&s[start..end]).map_err(|m| Misfit {
        place: start + m.place,
    })?;
    read_ending::extensions_maybe(&s[end..]).map_err(|m| Misfit {
        place: end + m.place,
    })?;
    Ok(Listed {
        start,
        len: held.len,
        count,
    })
}

// producedAt, then the entries and maybe extensions.
#[tactic(auto, using(crate::proofs::SignedCases::produced_cases))]
fn produced_and_more(s: &[u8]) -> Result<Listed, Misfit>
    ensures { result ≡ produced_of (produced_on.dec s.now) }
{
    let next = read_numbers::judge_time(s)?;
    let rest = entries_and_more(&s[next..]).map_err(|m| Misfit {
        place: next + m.place,
    })?;
    Ok(Listed {
        start: next + rest.start,
        ..rest
    })
}

// The responder id, then producedAt, the entries and maybe extensions.
#[tactic(auto, using(crate::proofs::SignedCases::fields_cases))]
fn signed_fields(s: &[u8]) -> Result<Inside, Misfit>
    ensures { result ≡ inside_fields (signed_fields.dec s.now) }
{
    let responder = read_signer::read_responder(s)?;
    let rest = produced_and_more(&s[responder..]).map_err(|m| Misfit {
        place: responder + m.place,
    })?;
    Ok(Inside {
        from: 0,
        responder,
        start: responder + rest.start,
        len: rest.len,
        count: rest.count,
    })
}

// The version, where it is written: how many octets it takes, and none where it is not.
#[tactic(auto, unfolding(crate::specs::Views::version_step))]
fn version_maybe(s: &[u8]) -> Step
    ensures { result ≡ version_step s.now }
{
    if read_sequence::starts_with(s, 0xa0) {
        return read_version::read_version(s);
    }
    Ok(0)
}

// Maybe the version, then the other fields.
#[tactic(auto, using(crate::proofs::VersionCases::version_cases))]
pub fn signed_body(s: &[u8]) -> Result<Inside, Misfit>
    ensures { result ≡ inside_signed (signed_body.dec s.now) }
{
    let from = version_maybe(s)?;
    let rest = signed_fields(&s[from..]).map_err(|m| Misfit {
        place: from + m.place,
    })?;
    Ok(Inside { from, ..rest })
}
