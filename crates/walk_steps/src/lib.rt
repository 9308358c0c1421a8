//! What stands at a place leads on, to a target, or nowhere.
#![tactic(auto)]

ghost use Rattle.std.specs.Prelude.{◌≡◌, ◌<◌};
ghost use Rattle.std.specs.Prelude.{Option, Some, None};
ghost use Rattle.section.specs.Section.{opening_of};
ghost use Rattle.walk_steps.specs.Leads.{goes_on, goes_to, stops, flow_leads, answer_leads, here_leads, leads_at, target_addr, enters_thumb, stop_number};
ghost use Rattle.walk_steps.specs.Steps.{place_of, is_inside, next_place, runs_off, target_place, leaves};

use a32::decode;
use insn::name::BLX;
use insn::{Cond, Decoded, Flow};
use section::{Here, Opened, read};
use word::refusal::Refusal;

/// An address that a word goes to, and whether it enters Thumb there.
#[derive(Clone, Copy, PartialEq, Eq)]
pub struct Target {
    pub addr: u32,
    pub thumb: bool,
}

/// Why a walk stops at a word.
#[derive(Clone, Copy, PartialEq, Eq)]
pub enum Stop {
    Data,
    Refused(Refusal),
}

/// Where a walk goes from a word, and what is to be reported of it.
#[derive(Clone, Copy, PartialEq, Eq)]
pub struct Leads {
    pub word: u32,
    /// It goes on to the place after it.
    pub on: bool,
    /// Its direct target, which is followed, or enters Thumb.
    pub to: Option<Target>,
    /// It goes where a register says.
    pub unknown: bool,
    pub stop: Option<Stop>,
}

impl Leads {
    /// The address of the target, or 0.
    pub fn target_addr(self) -> u32
        ensures { result ≡ target_addr self.to }
    {
        match self.to {
            Some(to) => to.addr,
            None => 0,
        }
    }

    /// Whether the target enters Thumb.
    pub fn enters_thumb(self) -> bool
        ensures { result ≡ enters_thumb self.to }
    {
        match self.to {
            Some(to) => to.thumb,
            None => false,
        }
    }

    /// The number of the refusal that a walk stops at, or 0.
    pub fn stop_number(self) -> u8
        ensures { result ≡ stop_number self.stop }
    {
        match self.stop {
            Some(Stop::Refused(refusal)) => refusal.number(),
            _ => 0,
        }
    }
}

/// Going on.
fn goes_on(word: u32, on: bool, unknown: bool) -> Leads
    ensures { result ≡ goes_on word on unknown }
{
    Leads {
        word,
        on,
        to: None,
        unknown,
        stop: None,
    }
}

/// Going to a target.
fn goes_to(word: u32, on: bool, thumb: bool, addr: u32) -> Leads
    ensures { result ≡ goes_to word on thumb addr }
{
    Leads {
        word,
        on,
        to: Some(Target { addr, thumb }),
        unknown: false,
        stop: None,
    }
}

/// Going nowhere.
fn stops(word: u32, stop: Stop) -> Leads
    ensures { result ≡ stops word stop }
{
    Leads {
        word,
        on: false,
        to: None,
        unknown: false,
        stop: Some(stop),
    }
}

/// By the flow of an instruction, with its name and its condition.
fn flow_leads(word: u32, name: u16, cond: Cond, flow: Flow) -> Leads
    ensures { result ≡ flow_leads word name cond flow }
{
    match flow {
        Flow::Next => goes_on(word, true, false),
        Flow::Branch(to) => goes_to(word, false, false, to),
        Flow::CondBranch(to) => goes_to(word, true, false, to),
        Flow::IndirectBranch => goes_on(word, cond.0 < 14, true),
        Flow::Call(to) => goes_to(word, true, name == BLX, to),
        Flow::IndirectCall => goes_on(word, true, true),
        Flow::Return => goes_on(word, cond.0 < 14, false),
        Flow::Trap => goes_on(word, cond.0 < 14, false),
    }
}

/// By a word's answer.
fn answer_leads(word: u32, d: Decoded) -> Leads
    ensures { result ≡ answer_leads word d }
{
    match d {
        Ok(insn) => flow_leads(word, insn.name, insn.cond, insn.flow),
        Err(refusal) => stops(word, Stop::Refused(refusal)),
    }
}

/// By what stands at a place.
pub fn here_leads(here: Here) -> Leads
    ensures { result ≡ here_leads here }
{
    match here {
        Here::Word(word, addr) => answer_leads(word, decode(word, addr as u64)),
        Here::Data(word, _) => stops(word, Stop::Data),
        Here::End => goes_on(0, false, false),
    }
}

/// By the place of a section. It takes bytes and what they are opened to, as `read` does: a section that is refused leads nowhere.
#[tactic(auto, unfolding(crate::specs::Leads::leads_at))]
pub fn leads_at(section: &[u8], opened: Opened, place: usize) -> Leads
    requires { opened ≡ opening_of section.now }
    ensures { result ≡ leads_at section.now place }
{
    here_leads(read(section, opened, place).here)
}

/// The place of an address, if the section has one.
/// Below the base it is place 0: whether there is one, `is_inside` tells.
pub fn place_of(opened: Opened, addr: u32) -> usize
    ensures { result ≡ place_of opened addr }
{
    (addr.saturating_sub(opened.base) / 4) as usize
}

/// Whether an address is in the section.
fn is_inside(opened: Opened, addr: u32) -> bool
    ensures { result ≡ is_inside opened addr }
{
    opened.base <= addr && place_of(opened, addr) < opened.count as usize
}

/// The next place of the section, if going on leads there.
pub fn next_place(opened: Opened, place: usize, leads: Leads) -> Option<usize>
    requires { place < opened.count }
    ensures { result ≡ next_place opened place leads }
{
    if leads.on && place + 1 < opened.count as usize {
        Some(place + 1)
    } else {
        None
    }
}

/// Whether it runs off the section's end.
pub fn runs_off(opened: Opened, place: usize, leads: Leads) -> bool
    requires { place < opened.count }
    ensures { result ≡ runs_off opened place leads }
{
    leads.on && !(place + 1 < opened.count as usize)
}

/// The place of a target that is followed: it is in the section, and stays in A32.
pub fn target_place(opened: Opened, leads: Leads) -> Option<usize>
    ensures { result ≡ target_place opened leads }
{
    match leads.to {
        Some(to) if !to.thumb && is_inside(opened, to.addr) => Some(place_of(opened, to.addr)),
        _ => None,
    }
}

/// Whether a target is outside the section.
pub fn leaves(opened: Opened, leads: Leads) -> bool
    ensures { result ≡ leaves opened leads }
{
    match leads.to {
        Some(to) => !is_inside(opened, to.addr),
        None => false,
    }
}
