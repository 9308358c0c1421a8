//! The walk through a section from an entry place, and its report.
#![tactic(auto)]

ghost use Rattle.std.specs.Prelude.{◌≡◌, true, false, ◌+◌, ◌≤◌, ◌<◌, IfSome, is_some, length, set, replicate};
ghost use Rattle.text.specs.Fits.{last_of};
ghost use Rattle.text.specs.Put.{Room, Put};
ghost use Rattle.section.specs.Section.{opening_of};
ghost use Rattle.walk_marks.specs.Marks.{how_many, marks_of};
ghost use Rattle.walk_steps.specs.Leads.{leads_at};
ghost use Rattle.walk_steps.specs.Steps.{listed, steps_from, steps_of};
ghost use Rattle.walk.specs.Reached.{Exact};
ghost use Rattle.walk.specs.Search.{Follows, Takes, Next};
ghost use Rattle.walk.specs.Report.{three_of, three, ways_in, ways_out, records_from, records_here, report_of};
ghost use Rattle.walk.specs.Walk.{answer_of, Reported, Walks};

use section::{Opened, Section};
use walk_marks::{first, get, set, unset};
use walk_steps::{Leads, here_leads, leaves, next_place, runs_off, target_place};
use word::refusal::Refusal;

/// Where what stands at a place leads.
#[tactic(auto, unfolding(walk_steps::specs::Leads::leads_at))]
fn leads_at(section: &Section<'_>, place: usize) -> Leads
    ensures { result ≡ leads_at section.now place }
{
    here_leads(section.at(place))
}

/// A mark for each place that a section can have, on those that are reached, and on what of these is still to be taken up, and so waits.
/// No set of the library's: there is no heap here, and a section has 4,096 places at most.
#[derive(Drop)]
struct Search {
    reached: [u32; 128],
    waiting: [u32; 128],
    ghost full: { (length reached ≡ 128) × (length waiting ≡ 128) },
}

impl Search {
    fn new() -> Search
        ensures { (marks_of result.reached ≡ replicate 4096 false) × (marks_of result.waiting ≡ replicate 4096 false) }
    {
        Search {
            reached: [0; 128],
            waiting: [0; 128],
        }
    }

    /// Marks the place of a step, if there is one. Where the mark is new, the place waits to be taken up.
    fn follow(&mut self, step: Option<usize>)
        requires { IfSome step (λ q. q < 4096) }
        ensures { Follows self.old.reached self.old.waiting (listed step) self.new.reached self.new.waiting }
    {
        let Some(q) = step else {
            return;
        };
        if get(&self.reached, q) {
            return;
        }
        set(&mut self.reached, q);
        set(&mut self.waiting, q);
    }

    /// The same for where `leads` leads from `place`.
    /// What is opened, the place and where it leads go as three, here and below, as `runs_off` takes them.
    fn follow_both(&mut self, opened: Opened, place: usize, leads: Leads)
        requires { (place < opened.count) × (opened.count ≤ 4096) }
        ensures { Follows self.old.reached self.old.waiting (steps_from opened place leads) self.new.reached self.new.waiting }
    {
        self.follow(next_place(opened, place, leads));
        self.follow(target_place(opened, leads));
    }

    /// Takes up the word at `place`, which waits no longer.
    fn take_up(&mut self, section: &Section<'_>, place: usize)
        requires { place < (opening_of section.now).count }
        ensures { Takes self.old.reached self.old.waiting place (steps_of section.now place) self.new.reached self.new.waiting }
    {
        unset(&mut self.waiting, place);
        let leads = leads_at(section, place);
        self.follow_both(section.opened(), place, leads);
    }

    /// A place that waits: the first from `place` on, else the first of all. That takes at most 256 looks, one for each number that is zero and one
    /// for each place of one that is not. Behind the last place where none waits, as `first` of `walk_marks` gives it.
    fn next(&self, place: usize) -> usize
        requires { place < 4096 }
        ensures { Next (marks_of self.now.waiting) result }
    {
        let at = first(&self.waiting, place);
        if at < 4096 {
            at
        } else {
            first(&self.waiting, 0)
        }
    }

    /// At first the entry is reached, and waits alone.
    fn begin(&mut self, entry: usize)
        requires { entry < 4096 }
        ensures reached_after { marks_of self.new.reached ≡ set (marks_of self.old.reached) entry true }
        ensures waiting_after { marks_of self.new.waiting ≡ set (marks_of self.old.waiting) entry true }
    {
        set(&mut self.reached, entry);
        set(&mut self.waiting, entry);
    }

    /// Marks the places that are reached from `entry`, and says how many words it took up: one in each turn, and each once.
    fn run(&mut self, section: &Section<'_>, entry: usize) -> usize
        requires entry_inside { entry < (opening_of section.now).count }
        requires none { (marks_of self.old.reached ≡ replicate 4096 false) × (marks_of self.old.waiting ≡ replicate 4096 false) }
        ensures { Exact (steps_of section.now) entry (marks_of self.new.reached) × (result ≡ how_many (marks_of self.new.reached)) }
    {
        self.begin(entry);
        let mut at = entry;
        let mut words = 0;
        // the marks say which place is next, so there is no range to go through
        while at < 4096 {
            self.take_up(section, at);
            words += 1;
            at = self.next(at);
        }
        words
    }
}

/// One record, if it is there. Six of them stand in a row; an `Option` of a value would be made to be taken apart at once, since three have 0 there.
fn put_three(out: &mut [u32], at: usize, there: bool, place: usize, kind: u32, value: u32) -> usize
    requires { Room out.old at (three_of there place kind value) × (place < 4096) }
    ensures { Put out.old at (three_of there place kind value) result out.new }
{
    if !there {
        return at;
    }
    out[at] = place as u32;
    out[at + 1] = kind;
    out[at + 2] = value;
    at + 3
}

/// The records of a place on its word and its target.
fn put_in(out: &mut [u32], at: usize, opened: Opened, place: usize, leads: Leads) -> usize
    requires { Room out.old at (ways_in opened place leads) × (place < 4096) }
    ensures { Put out.old at (ways_in opened place leads) result out.new }
{
    let at = put_three(out, at, true, place, 0, leads.word);
    let to = leads.target_addr();
    let out_of = leaves(opened, leads);
    let at = put_three(out, at, out_of, place, 1, to);
    put_three(out, at, leads.enters_thumb(), place, 2, to)
}

/// The rest of them.
fn put_out(out: &mut [u32], at: usize, opened: Opened, place: usize, leads: Leads) -> usize
    requires { Room out.old at (ways_out opened place leads) × (place < 4096) × (place < opened.count) }
    ensures { Put out.old at (ways_out opened place leads) result out.new }
{
    let at = put_three(out, at, leads.unknown, place, 3, 0);
    let off = runs_off(opened, place, leads);
    let at = put_three(out, at, off, place, 4, 0);
    put_three(
        out,
        at,
        leads.stop.is_some(),
        place,
        5,
        leads.stop_number() as u32,
    )
}

/// The records of a place.
fn put_records(out: &mut [u32], at: usize, opened: Opened, place: usize, leads: Leads) -> usize
    requires { Room out.old at (records_from opened place leads) × (place < 4096) × (place < opened.count) }
    ensures { Put out.old at (records_from opened place leads) result out.new }
{
    let at = put_in(out, at, opened, place, leads);
    put_out(out, at, opened, place, leads)
}

/// The numbers of one record, if it is there.
fn three(there: bool) -> usize
    ensures { (result ≡ three there) × (result ≤ 3) }
{
    if there { 3 } else { 0 }
}

/// How many numbers the records of a place have.
/// Counted beside being written, here and below: nothing may be written before all of it is known to fit.
fn records_len(opened: Opened, place: usize, leads: Leads) -> usize
    requires { place < opened.count }
    ensures { result ≡ length (records_from opened place leads) }
{
    let out_of = three(leaves(opened, leads));
    let off = three(runs_off(opened, place, leads));
    3 + out_of
        + three(leads.enters_thumb())
        + three(leads.unknown)
        + off
        + three(leads.stop.is_some())
}

/// The records of a place that is marked. It stands apart from `put_here`, which is called for each place of the section: what leads from a place is
/// made room for only where the place is marked.
fn put_marked(out: &mut [u32], at: usize, section: &Section<'_>, place: usize) -> usize
    requires place_in_bounds { place < (opening_of section.now).count }
    requires room { Room out.old at (records_from (opening_of section.now) place (leads_at section.now place)) }
    ensures { Put out.old at (records_from (opening_of section.now) place (leads_at section.now place)) result out.new }
{
    let leads = leads_at(section, place);
    put_records(out, at, section.opened(), place, leads)
}

/// How many numbers they have.
fn marked_len(section: &Section<'_>, place: usize) -> usize
    requires { place < (opening_of section.now).count }
    ensures { result ≡ length (records_from (opening_of section.now) place (leads_at section.now place)) }
{
    let leads = leads_at(section, place);
    records_len(section.opened(), place, leads)
}

/// The records of a place, if it is marked.
fn put_here(
    out: &mut [u32],
    at: usize,
    reached: &[u32; 128],
    section: &Section<'_>,
    place: usize,
) -> usize
    requires place_in_bounds { place < (opening_of section.now).count }
    requires room { Room out.old at (records_here section.now (marks_of reached.now) place) }
    ensures { Put out.old at (records_here section.now (marks_of reached.now) place) result out.new }
{
    if get(reached, place) {
        put_marked(out, at, section, place)
    } else {
        at
    }
}

/// The report, place by place.
fn put_report(out: &mut [u32], reached: &[u32; 128], section: &Section<'_>) -> usize
    requires { Room out.old 0 (report_of section.now (marks_of reached.now)) }
    ensures { Put out.old 0 (report_of section.now (marks_of reached.now)) result out.new }
{
    let n = section.opened().count as usize;
    let mut at = 0;
    // By place, by which the marks are kept.
    for place in 0..n {
        at = put_here(out, at, reached, section, place);
    }
    at
}

/// How many numbers it has.
fn report_len(reached: &[u32; 128], section: &Section<'_>) -> usize
    ensures { result ≡ length (report_of section.now (marks_of reached.now)) }
{
    let n = section.opened().count as usize;
    let mut len = 0;
    // By place, by which the marks are kept. A place without one is left out: where a function gave 0 for it, each took a jump more.
    for place in 0..n {
        if get(reached, place) {
            len += marked_len(section, place);
        }
    }
    len
}

/// What a walk gives: how many records there are, and how many words were taken up.
#[derive(Clone, Copy, PartialEq, Eq)]
pub struct Walked {
    pub records: usize,
    pub words: usize,
}

/// Writes the report to the start of `out`, once it is known to fit.
fn report(
    out: &mut [u32],
    reached: &[u32; 128],
    section: &Section<'_>,
    words: usize,
) -> Result<Walked, Refusal>
    ensures value { result ≡ answer_of (report_of section.now (marks_of reached.now)) words out.old }
    ensures out_after { out.new ≡ last_of (report_of section.now (marks_of reached.now)) out.old }
{
    if out.len() < report_len(reached, section) {
        return Err(Refusal::NoRoom);
    }
    let numbers = put_report(out, reached, section);
    Ok(Walked {
        records: numbers / 3,
        words,
    })
}

/// The walk from a place of the section.
fn found(section: &Section<'_>, entry: usize, out: &mut [u32]) -> Result<Walked, Refusal>
    requires { entry < (opening_of section.now).count }
    ensures { Reported section.now entry out.old result out.new }
{
    let mut search = Search::new();
    let words = search.run(section, entry);
    report(out, &search.reached, section, words)
}

/// Reports what a walk through a section from the place `entry` reaches, and each way out.
pub fn walk(section: &[u8], entry: usize, out: &mut [u32]) -> Result<Walked, Refusal>
    ensures { Walks section.now entry out.old result out.new }
{
    let section = Section::open(section)?;
    if section.opened().count as usize <= entry {
        return Err(Refusal::NoPlace);
    }
    found(&section, entry, out)
}
