// Salvage: the survivors of words that were damaged, written as a canonical list to a second area. The keys that count
// are gathered and sorted (`candidates`, `collect`); each then stays if it is the issue of its first part that stands,
// and `gateway` commits those that stay. They always fit, so that no refusal is for a full stash.
#![tactic(auto)]

ghost use Rattle.std.specs.Prelude.{◌≡◌, not, ◌&&◌, ◌∷◌, ◌+◌, ◌*◌, ◌≤◌, ◌<◌, eqb, length};
ghost use Rattle.refusals.specs.Answer.{number};
ghost use Rattle.refusals.specs.Refusal.{first_refusal};
ghost use Rattle.layout.specs.Layout.{max_places, place_width, slots_of, place_entries, slot_entry, stash_entries};
ghost use Rattle.layout.specs.Layout.{params_of, header_of, image};
ghost use Rattle.layout.specs.Shape.{Shaped};
ghost use Rattle.survivors.specs.Salvage.{counting, standing_keys, survivors, values, area_refusals};
ghost use Rattle.survivors.specs.Salvage.{salvage_outcome};
ghost use Rattle.survivors.specs.Laws.{Salvable};
ghost use Rattle.survivors.specs.Looked.{is_issue, sound_issue};
ghost use Rattle.candidates.specs.Candidates.{entry_of};
ghost use Rattle.scratch_set.specs.Edges.{Lined};
ghost use Rattle.salvage.specs.Chosen.{CandidatesStand, standing_tier};
ghost use Rattle.salvage.specs.Salvaging.{Gathered, Told, ToldOfSalvage};

use access::{key_in, slot_tier, stash_start, with_keys};
use candidates::{count_occupied, gather_counting, is_sound};
use collect::make_set;
use edges::pack;
use gateway::{clear, commit};
use layout::{Header, PLACE_WIDTH};
use ranges::{TABULATION_LENGTH, first_part};
use refusals::Refusal;
use scratch_layout::edges_start;
use slots::{first_slot, second_slot};
use words::wide;

// An issue of a first part, with its tier; zeros where there is none. No Option: `choose` asks for keys that count, of
// which an issue is always found, and would get a case that never comes.
#[derive(Drop)]
pub struct Issue {
    pub key: u32,
    pub tier: u32,
}

// Whether a key and its tier are sound, and the key has this first part.
fn is_issue(key: u32, tier: u32, part: u32) -> bool
    ensures { result ≡ is_issue (entry_of key tier) part }
{
    is_sound(key, tier) && first_part(key) == part
}

// The first sound issue of a key's first part in these places.
fn issue_in_places(places: &[u32], count: usize, key: u32) -> Issue
    requires { (length places.now ≡ place_width * count) × (count ≤ max_places) }
    ensures { entry_of result.key result.tier ≡ sound_issue (place_entries count places.now) key }
{
    let part = first_part(key);
    for i in 0..count {
        let c = places[PLACE_WIDTH * i];
        let t = places[PLACE_WIDTH * i + 1];
        if is_issue(c, t, part) {
            return Issue { key: c, tier: t };
        }
    }
    Issue { key: 0, tier: 0 }
}

// The issue of a key's first part that stands; `first` and `second` are its slots. Issues have the same two slots, so
// that it is in the first, else in the second, else in the first place of the stash that has one.
fn issue_at(words: &[u32], first: u32, second: u32, key: u32) -> Issue
    requires { Shaped words.now × ((first < 2 * slots_of words.now) × (second < 2 * slots_of words.now)) }
    ensures { entry_of result.key result.tier ≡ sound_issue (slot_entry words.now first
        ∷ slot_entry words.now second ∷ stash_entries words.now) key }
{
    let part = first_part(key);
    let c = key_in(words, first);
    let t = slot_tier(words, first);
    if is_issue(c, t, part) {
        return Issue { key: c, tier: t };
    }
    let d = key_in(words, second);
    let u = slot_tier(words, second);
    if is_issue(d, u, part) {
        return Issue { key: d, tier: u };
    }
    let header = access::read_header(words);
    let start = stash_start(header.slots);
    let count = wide(header.places);
    issue_in_places(&words[start..start + PLACE_WIDTH * count], count, key)
}

// Of the n candidates in scratch, ascending, those stay that are the issue that stands: they move to the front, and
// their edges come to their place. The answer is how many they are.
fn choose(
    tabulation: &[u16],
    words: &[u32],
    scratch: &mut [u32],
    r: u32,
    s: u32,
    station: u32,
    n: usize,
) -> usize
    requires { CandidatesStand tabulation.now words.now scratch.old r s station n }
    ensures { (result ≡ length (standing_keys (counting tabulation.now words.now)))
        × Lined (params_of tabulation.now words.now)
        (standing_tier tabulation.now words.now)
        (standing_keys (counting tabulation.now words.now)) scratch.new }
{
    let start = edges_start(r, s);
    let mut m = 0;
    for i in 0..n {
        let key = scratch[i + 1];
        let first = first_slot(tabulation, r, station, key);
        let second = second_slot(tabulation, r, station, key);
        let issue = issue_at(words, first, second, key);
        let stands = issue.key == key;
        if stands {
            scratch[m + 1] = key;
            scratch[start + m] = pack(first, second, issue.tier);
            m += 1;
        }
    }
    m
}

// 1, 2 for the words, 2 for the length of the target, and 3 for that of scratch.
fn area_refusal(tabulation: &[u16], words: &[u32], len: usize, room: usize) -> Result<(), Refusal>
    ensures { number result ≡ first_refusal (area_refusals tabulation.now words.now len room) }
{
    if tabulation.len() != TABULATION_LENGTH {
        return Err(Refusal::WrongTabulation);
    }
    if !access::is_shaped(words) {
        return Err(Refusal::WrongShape);
    }
    if len != words.len() {
        return Err(Refusal::WrongShape);
    }
    let header = access::read_header(words);
    if room < access::scratch_for(header.slots, header.places) {
        return Err(Refusal::ShortScratch);
    }
    Ok(())
}

// Whether something stands in the words, and yet nothing counts.
fn is_hopeless(occupied: usize, counted: usize) -> bool
    ensures { result ≡ (not (eqb occupied 0) && eqb counted 0) }
{
    occupied != 0 && counted == 0
}

// The keys that count stand in scratch, `counted` of them: the survivors among them are written to the target.
fn write_survivors(
    tabulation: &[u16],
    words: &[u32],
    target: &mut [u32],
    scratch: &mut [u32],
    header: Header,
    counted: usize,
)
    requires { Gathered tabulation.now words.now target.old scratch.old header counted }
    ensures { target.new ≡ image (params_of tabulation.now words.now)
        (survivors tabulation.now words.now) }
{
    let r = header.slots;
    let s = header.places;
    let n = make_set(&mut scratch[1..], counted);
    let m = choose(tabulation, words, scratch, r, s, header.station, n);
    let heading = with_keys(header, m as u32);
    // They always fit.
    let _ = commit(target, scratch, heading);
}

// The words passed 1 to 3: 15, or the survivors are written to the target.
fn salvage_set(
    tabulation: &[u16],
    words: &[u32],
    target: &mut [u32],
    scratch: &mut [u32],
    header: Header,
) -> Result<u32, Refusal>
    requires { Salvable tabulation.now words.now (length target.old) (length scratch.old)
        × (header ≡ header_of words.now) }
    ensures { Told tabulation.now words.now target.old result
        target.new }
{
    let r = header.slots;
    let s = header.places;
    let occupied = count_occupied(words, r, s);
    let counted = gather_counting(tabulation, words, scratch, r, s, header.station);
    if is_hopeless(occupied, counted) {
        return Err(Refusal::NoneCounts);
    }
    write_survivors(tabulation, words, target, scratch, header, counted);
    let lost = occupied - counted;
    Ok(lost as u32)
}

// The whole of the call but for the clearing of scratch.
fn salvage_words(
    tabulation: &[u16],
    words: &[u32],
    target: &mut [u32],
    scratch: &mut [u32],
) -> Result<u32, Refusal>
    ensures { ToldOfSalvage tabulation.now words.now target.old
        scratch.old result target.new }
{
    area_refusal(tabulation, words, target.len(), scratch.len())?;
    let header = access::read_header(words);
    salvage_set(tabulation, words, target, scratch, header)
}

// Salvage: its whole outcome. The words are only read.
pub fn salvage(
    tabulation: &[u16],
    words: &[u32],
    target: &mut [u32],
    scratch: &mut [u32],
) -> Result<u32, Refusal>
    ensures { record {
      number = number result;
      values = values result;
      words = words.now;
      target = target.new;
      scratch = scratch.new;
    }
        ≡ salvage_outcome tabulation.now words.now target.old
        scratch.old }
{
    let answer = salvage_words(tabulation, words, target, scratch);
    clear(scratch);
    answer
}
