// Responder ids.
ghost use Rattle.std.specs.Prelude.{◌≡◌};
ghost use Rattle.codec.proofs.Sequence.{only};
ghost use Rattle.codec.specs.Views.{step_of, fit_of};
ghost use Rattle.layout.specs.Words.{between};
ghost use Rattle.layout.proofs.ElementKinds.{string, free_sequence};
ghost use Rattle.layout.proofs.Format.{name_id, key_id, responder_id};

use codec::{Fit, Step};

// A Name and nothing more.
#[tactic(auto, using(read_sequence::specs::CaseLaws::filled_only), unfolding(layout::proofs::ElementKinds::free_sequence))]
fn name_alone(s: &[u8]) -> Fit
    ensures { result ≡ fit_of ((only free_sequence).dec s.now) }
{
    read_sequence::filled(tree::read_tree_tagged(s, 0x30, 16), s.len())
}

// byName [1]
#[tactic(auto, using(read_sequence::specs::CaseLaws::tagged_wrong, read_sequence::specs::CaseLaws::tagged_end, read_sequence::specs::CaseLaws::tagged_sum, read_sequence::specs::CaseLaws::tagged_closed), unfolding(layout::proofs::Format::name_id))]
fn read_name(s: &[u8]) -> Step
    ensures { result ≡ step_of (name_id.dec s.now) }
{
    let name = read_content::expect(s, 0xa1)?;
    let end = name.start + name.len;
    read_sequence::closed(name.start, end, name_alone(&s[name.start..end]))
}

// A key's hash and nothing more.
#[tactic(auto, using(read_sequence::specs::CaseLaws::string_sum, crate::proofs::SpotCases::alone_wrong, crate::proofs::SpotCases::alone_filled))]
fn key_alone(s: &[u8]) -> Fit
    ensures { result ≡ fit_of ((only (string (between 20 20))).dec s.now) }
{
    let hash = read_content::read_string(s, 20, 20)?;
    let end = hash.start + hash.len;
    read_sequence::filled(Ok(end), s.len())
}

// byKey [2]
#[tactic(auto, using(read_sequence::specs::CaseLaws::tagged_wrong, read_sequence::specs::CaseLaws::tagged_end, read_sequence::specs::CaseLaws::tagged_sum, read_sequence::specs::CaseLaws::tagged_closed), unfolding(layout::proofs::Format::key_id))]
fn read_key(s: &[u8]) -> Step
    ensures { result ≡ step_of (key_id.dec s.now) }
{
    let key = read_content::expect(s, 0xa2)?;
    let end = key.start + key.len;
    read_sequence::closed(key.start, end, key_alone(&s[key.start..end]))
}

// ResponderID ::= CHOICE { byName [1], byKey [2] }, by the first octet.
pub fn read_responder(s: &[u8]) -> Step
    ensures { result ≡ step_of (responder_id.dec s.now) }
{
    if read_sequence::starts_with(s, 0xa1) {
        return read_name(s);
    }
    read_key(s)
}
