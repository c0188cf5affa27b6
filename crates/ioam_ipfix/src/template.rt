//! The eight templates of the profile (RFC 7011 section 3.4.1).

ghost use Rattle.std.specs.Prelude.{◌≡◌, ◌+◌, ◌≤◌, ◌<◌, [], ◌∷◌, ◌++◌, length, flat_map};
ghost use Rattle.ioam_base.specs.Words.{two_octets};
ghost use Rattle.ioam_ipfix.specs.Data.{weight};
ghost use Rattle.ioam_ipfix.specs.Templates.{IsTemplate, tells_flow, tells_seq, tells_visit, only, fields_with, field_octets, template_octets};

use ioam_base::buffer::Buffer;
use ioam_base::octets::put_at;
use std::marker::Model;

/// Whether a template tells a flow.
#[tactic(auto, unfolding(crate::specs::Templates::tells_flow))]
pub(crate) fn tells_flow(id: u16) -> bool
    ensures { result ≡ tells_flow id }
{
    id / 4 % 2 == 1
}

/// Whether it tells a sequence number.
#[tactic(auto, unfolding(crate::specs::Templates::tells_seq))]
pub(crate) fn tells_seq(id: u16) -> bool
    ensures { result ≡ tells_seq id }
{
    id / 2 % 2 == 1
}

/// Whether it tells a visit.
#[tactic(auto, unfolding(crate::specs::Templates::tells_visit))]
pub(crate) fn tells_visit(id: u16) -> bool
    ensures { result ≡ tells_visit id }
{
    id % 2 == 1
}

/// The octets of one template, 76 at most. Contracts see the octets that it holds.
#[derive(Drop)]
pub(crate) struct TemplateBuf {
    octets: [u8; 76],
    len: usize,
}

impl Model for TemplateBuf {
    ghost use Rattle.std.specs.Prelude.{ℕ, ◌≤◌, List, take};

    ghost Value = { List ℕ };

    ghost view = { λ template. take template.len template.octets };

    ghost invariant = { λ template. template.len ≤ 76 };
}

impl TemplateBuf {
    fn new() -> TemplateBuf
        ensures { result ≡ [] }
    {
        TemplateBuf {
            octets: [0; 76],
            len: 0,
        }
    }

    /// Its octets.
    pub(crate) fn octets(&self) -> &[u8]
        ensures { result.now ≡ self.now }
    {
        &self.octets[..self.len]
    }

    // Appends octets.
    fn append(&mut self, part: &[u8])
        requires { length self.old + length part.now ≤ 76 }
        ensures value { self.new ≡ self.old ++ part.now }
        ensures size { length self.new ≡ length self.old + length part.now }
    {
        put_at(&mut self.octets, self.len, part);
        self.len += part.len();
    }

    // Appends the id and how many fields it has.
    fn head(&mut self, id: u16, count: u16)
        requires { length self.old + 4 ≤ 76 }
        ensures value { self.new ≡ self.old ++ (two_octets id ++ two_octets count) }
        ensures size { length self.new ≡ length self.old + 4 }
    {
        let mut head = Buffer::new();
        head.two(id);
        head.two(count);
        self.append(head.octets());
    }

    // Appends a field by its number and its length.
    fn field(&mut self, number: u16, size: u16)
        requires room { length self.old + 8 ≤ 76 }
        requires small { number < 32768 }
        ensures value { self.new ≡ self.old ++ field_octets (number, size) }
        ensures size { length self.new ≡ length self.old + 8 }
    {
        let mut field = Buffer::new();
        field.two(32_768 + number);
        field.two(size);
        field.four(32_473);
        self.append(field.octets());
    }

    // Appends the time and the interface of a visit, where it is told.
    fn visit(&mut self, there: bool)
        requires { length self.old + 16 ≤ 76 }
        ensures value { self.new ≡ self.old ++ flat_map field_octets (only there ((5, 8) ∷ (6, 4) ∷ [])) }
        ensures size { length self.new ≤ length self.old + 16 }
    {
        if there {
            self.field(5, 8);
            self.field(6, 4);
        }
    }

    // Appends a field of a number of 32 bits, where it is told.
    fn number(&mut self, there: bool, number: u16)
        requires room { length self.old + 8 ≤ 76 }
        requires small { number < 32768 }
        ensures value { self.new ≡ self.old ++ flat_map field_octets (only there ((number, 4) ∷ [])) }
        ensures size { length self.new ≤ length self.old + 8 }
    {
        if there {
            self.field(number, 4);
        }
    }
}

/// A number that counts where something is there.
pub(crate) fn weight(there: bool, number: u16) -> u16
    ensures value { result ≡ weight there number }
    ensures small { result ≤ number }
{
    if there { number } else { 0 }
}

// How many fields a template has.
#[tactic(auto, using(crate::proofs::TemplateLaws::fields_count))]
fn field_count(visit: bool, flow: bool, seq: bool) -> u16
    ensures { result ≡ length (fields_with visit flow seq) }
{
    5 + weight(visit, 2) + weight(flow, 1) + weight(seq, 1)
}

/// The template of an id.
pub(crate) fn template(id: u16) -> TemplateBuf
    requires { IsTemplate id }
    ensures { result ≡ template_octets id }
{
    let visit = tells_visit(id);
    let flow = tells_flow(id);
    let seq = tells_seq(id);
    let mut template = TemplateBuf::new();
    template.head(id, field_count(visit, flow, seq));
    template.field(1, 2);
    template.field(2, 1);
    template.field(3, 1);
    template.field(4, 3);
    template.visit(visit);
    template.number(flow, 7);
    template.number(seq, 8);
    template.field(9, 65_535);
    template
}
