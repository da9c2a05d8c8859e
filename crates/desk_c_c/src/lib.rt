// The functions of include/desk.h, for C and Rust: the archive that this crate makes has their symbols. Each calls
// the function of that name in crate desk_c and has its clauses. A slice is a pointer and a length in C.
#![tactic(auto)]

ghost use Rattle.std.specs.Prelude.{◌≡◌, length};
ghost use Rattle.octets.specs.Buffer.{put_in, put_size};
ghost use Rattle.answer.specs.Verdict.{without_place};
ghost use Rattle.read_response.specs.Parts.{judged_of};
ghost use Rattle.read_response.specs.Refusals.{refusal_of};
ghost use Rattle.show.specs.Shown.{entry_of};
ghost use Rattle.slip.specs.Slip.{slip_of, read_of};
ghost use Rattle.desk_question.specs.Asked.{asked};
ghost use Rattle.cache_rules.specs.Cache.{filed_of, buffer_of};
ghost use Rattle.cache_rules.specs.Numbers.{filed_number, filed_count};
ghost use Rattle.cache_ask.specs.Found.{ask_found};
ghost use Rattle.desk_c.specs.Papers.{slip_number, request_size, request_in};
ghost use Rattle.desk_c.specs.Places.{signed_span, algorithm_in, signature_span, certificates_in, entry_number, entry_span, place_over};
ghost use Rattle.desk_c.specs.Caches.{clock_at, found_number, found_span};

// Writes the slip of the answer to a question of 353 octets: its length, or 0 where the buffer is too
// short. Reading that slip gives back the answer, without its place.
#[unsafe(no_mangle)]
pub extern "C" fn desk_check(question: &[u8], response: &[u8], slip: &mut [u8]) -> usize
    ensures value { result ≡ put_size slip.old (slip_of (asked question.now response.now)) }
    ensures slip_after { slip.new ≡ put_in slip.old 0 (slip_of (asked question.now response.now)) }
    ensures response_value { read_of 20 (slip_of (asked question.now response.now)) ≡ without_place (asked question.now response.now) }
{
    desk_c::desk_check(question, response, slip)
}

// Whether octets are a slip: 0, or 17 where they break the slip rules.
#[unsafe(no_mangle)]
pub extern "C" fn desk_slip(slip: &[u8]) -> usize
    ensures { result ≡ slip_number (read_of 20 slip.now).verdict }
{
    desk_c::desk_slip(slip)
}

// Writes the request for a card of 61 octets: its length, or 0 where the card does not fit or the
// buffer is too short.
#[unsafe(no_mangle)]
pub extern "C" fn desk_request(card: &[u8], out: &mut [u8]) -> usize
    ensures value { result ≡ request_size card.now (length out.old) }
    ensures out_after { out.new ≡ request_in card.now out.old }
{
    desk_c::desk_request(card, out)
}

// The refusal of a response before any question is asked: 0 or 2 to 5, and the status that goes with 4.
#[unsafe(no_mangle)]
pub extern "C" fn desk_refusal(response: &[u8], status: &mut usize) -> usize
    ensures value { result ≡ (refusal_of (judged_of response.now)).number }
    ensures status_after { status.new ≡ (refusal_of (judged_of response.now)).status }
{
    desk_c::desk_refusal(response, status)
}

// The same refusal, and the place that goes with 3: it is written with 3 alone.
#[unsafe(no_mangle)]
pub extern "C" fn desk_misfit(response: &[u8], place: &mut usize) -> usize
    ensures value { result ≡ (refusal_of (judged_of response.now)).number }
    ensures place_after { place.new ≡ place_over (refusal_of (judged_of response.now)).place place.old }
{
    desk_c::desk_misfit(response, place)
}

// The signed part, header included: 0 and where it is, or the refusal's number and an empty part.
#[unsafe(no_mangle)]
pub extern "C" fn desk_signed(response: &[u8], from: &mut usize, len: &mut usize) -> usize
    ensures value { result ≡ (refusal_of (judged_of response.now)).number }
    ensures from_after { from.new ≡ (signed_span (judged_of response.now)).start }
    ensures len_after { len.new ≡ (signed_span (judged_of response.now)).len }
{
    desk_c::desk_signed(response, from, len)
}

// The signature's algorithm identifier, header included, likewise.
#[unsafe(no_mangle)]
pub extern "C" fn desk_algorithm(response: &[u8], from: &mut usize, len: &mut usize) -> usize
    ensures value { result ≡ (refusal_of (judged_of response.now)).number }
    ensures from_after { from.new ≡ (algorithm_in (judged_of response.now)).start }
    ensures len_after { len.new ≡ (algorithm_in (judged_of response.now)).len }
{
    desk_c::desk_algorithm(response, from, len)
}

// The signature without its 00, likewise.
#[unsafe(no_mangle)]
pub extern "C" fn desk_signature(response: &[u8], from: &mut usize, len: &mut usize) -> usize
    ensures value { result ≡ (refusal_of (judged_of response.now)).number }
    ensures from_after { from.new ≡ (signature_span (judged_of response.now)).start }
    ensures len_after { len.new ≡ (signature_span (judged_of response.now)).len }
{
    desk_c::desk_signature(response, from, len)
}

// The certificates one after the other, without what is around them: 0 and where they are, an empty part
// where there are none; or the refusal's number and an empty part.
#[unsafe(no_mangle)]
pub extern "C" fn desk_certificates(response: &[u8], from: &mut usize, len: &mut usize) -> usize
    ensures value { result ≡ (refusal_of (judged_of response.now)).number }
    ensures from_after { from.new ≡ (certificates_in response.now (judged_of response.now)).start }
    ensures len_after { len.new ≡ (certificates_in response.now (judged_of response.now)).len }
{
    desk_c::desk_certificates(response, from, len)
}

// The entry with this ordinal, counted from 0, header included: 0 and where it is, an empty part past
// the last one; or the refusal's number and an empty part.
#[unsafe(no_mangle)]
pub extern "C" fn desk_entry(
    response: &[u8],
    ordinal: usize,
    from: &mut usize,
    len: &mut usize,
) -> usize
    ensures value { result ≡ entry_number (entry_of response.now ordinal) }
    ensures from_after { from.new ≡ (entry_span (entry_of response.now ordinal)).start }
    ensures len_after { len.new ≡ (entry_span (entry_of response.now ordinal)).len }
{
    desk_c::desk_entry(response, ordinal, from, len)
}

// Files a slip in the cache: 0 and how many places are then filled, or 19, 1, 17 or 20, no place counted
// and nothing written.
#[unsafe(no_mangle)]
pub extern "C" fn desk_cache_file(
    cache: &mut [u8],
    slip: &[u8],
    time: u64,
    tolerance: u64,
    places: &mut usize,
) -> usize
    ensures value { result ≡ filed_number (filed_of (clock_at time tolerance) cache.old slip.now) }
    ensures cache_after { cache.new ≡ buffer_of (clock_at time tolerance) cache.old slip.now }
    ensures places_after { places.new ≡ filed_count (filed_of (clock_at time tolerance) cache.old slip.now) }
{
    desk_c::desk_cache_file(cache, slip, time, tolerance, places)
}

// Asks the cache for a card of 61 octets: 0 and where its slip is; or 19, 1, 15 or 16, or 256 where no
// place has the card, and an empty part.
#[unsafe(no_mangle)]
pub extern "C" fn desk_cache_ask(
    cache: &[u8],
    card: &[u8],
    time: u64,
    tolerance: u64,
    from: &mut usize,
    len: &mut usize,
) -> usize
    ensures value { result ≡ found_number (ask_found (clock_at time tolerance) card.now cache.now) }
    ensures from_after { from.new ≡ (found_span cache.now (ask_found (clock_at time tolerance) card.now cache.now)).start }
    ensures len_after { len.new ≡ (found_span cache.now (ask_found (clock_at time tolerance) card.now cache.now)).len }
{
    desk_c::desk_cache_ask(cache, card, time, tolerance, from, len)
}
