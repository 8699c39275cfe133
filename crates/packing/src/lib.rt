// Two elements to a byte. In a packed stream the low half of a byte is the earlier element, and an odd count leaves a spare high half:
// packing writes zero there, and readers do not look at it. What an element, a packed and an unpacked list are stands in specs/Packing.antt.
#![tactic(auto)]

ghost use Rattle.std.specs.Prelude.{◌≡◌, ◌+◌, ◌*◌, ◌/◌, ◌%◌, ◌<◌, ◌≤◌, true, length};
ghost use Rattle.ground.specs.Answers.{first, number_of};
ghost use Rattle.packing.specs.Packing.{packed_bytes, byte_of, packed, unpacked, in_field, pack_rules, unpack_rules, Packs, Unpacks};
ghost use Rattle.packing.specs.Packing.{element as Packing·element};
ghost use Rattle.packing.specs.Written.{Put};
ghost use Rattle.packing.specs.Spread.{Spread};

use ground::{Refusal, demand};

// How many bytes k elements take, for every k.
#[tactic(auto, unfolding(crate::specs::Packing::packed_bytes))]
pub fn packed_bytes(k: usize) -> usize
    ensures { result ≡ packed_bytes k }
{
    k.div_ceil(2)
}

// The half of a byte that is the earlier element, and the half that is the later one: page 01's rule of the two halves, for every reader.
fn low_half(b: u8) -> u8
    ensures { result ≡ b % 16 }
{
    b & 15
}

fn high_half(b: u8) -> u8
    ensures { result ≡ b / 16 % 16 }
{
    b >> 4
}

// Element e of a packed stream.
pub fn element(s: &[u8], e: usize) -> u8
    requires { e / 2 < length s.now }
    ensures { result ≡ Packing·element s.now e }
{
    let b = s[e / 2];
    if e % 2 == 0 {
        low_half(b)
    } else {
        high_half(b)
    }
}

// The byte of an earlier and a later element.
fn joined(low: u8, high: u8) -> u8
    requires { (low < 16) × (high < 16) }
    ensures { result ≡ low + 16 * high }
{
    low | (high << 4)
}

// Writes x as element e of a packed stream; every other element stays, also the one in the same byte.
pub fn put(s: &mut [u8], e: usize, x: u8)
    requires { (e / 2 < length s.old) × (x < 16) }
    ensures { Put s.old e x s.new }
{
    let b = s[e / 2];
    if e % 2 == 0 {
        s[e / 2] = joined(x, high_half(b));
    } else {
        s[e / 2] = joined(low_half(b), x);
    }
}

// No element is above 15.
fn in_field(elements: &[u8]) -> bool
    ensures { result ≡ in_field elements.now }
{
    elements.iter().all(|x| *x <= 15)
}

// Packs the elements, two to a byte. 22: the counts do not fit; 23: an element above 15. A refusal leaves the bytes as they were.
pub fn pack(elements: &[u8], bytes: &mut [u8]) -> Result<(), Refusal>
    ensures { Packs elements.now bytes.old result bytes.new }
{
    check_pack(elements, bytes)?;
    pack_all(elements, bytes);
    Ok(())
}

// Unpacks as many elements as there is room for. 22: the counts do not fit. A refusal leaves the elements as they were.
// Like pack, the check and then the work: no plainer.
pub fn unpack(bytes: &[u8], elements: &mut [u8]) -> Result<(), Refusal>
    ensures { Unpacks bytes.now elements.old result elements.new }
{
    check_unpack(bytes, elements)?;
    unpack_all(bytes, elements);
    Ok(())
}

// The first refusal that applies to a call of pack.
#[tactic(auto, unfolding(ground::specs::Answers::first, crate::specs::Packing::pack_rules))]
fn check_pack(elements: &[u8], bytes: &[u8]) -> Result<(), Refusal>
    ensures { number_of result ≡ first (pack_rules elements.now bytes.now) }
{
    let fits = bytes.len() == packed_bytes(elements.len());
    demand(fits, Refusal::CountsDiffer)?;
    demand(in_field(elements), Refusal::AboveFifteen)
}

// The first refusal that applies to a call of unpack.
#[tactic(auto, unfolding(ground::specs::Answers::first, crate::specs::Packing::unpack_rules))]
fn check_unpack(bytes: &[u8], elements: &[u8]) -> Result<(), Refusal>
    ensures { number_of result ≡ first (unpack_rules bytes.now elements.now) }
{
    let fits = bytes.len() == packed_bytes(elements.len());
    demand(fits, Refusal::CountsDiffer)
}

// The byte that holds elements 2 * j and 2 * j + 1: where the later one is missing, its half is zero.
fn byte_of(elements: &[u8], j: usize) -> u8
    requires { (2 * j < length elements.now) × (in_field elements.now ≡ true) }
    ensures { result ≡ byte_of elements.now j }
{
    let e = 2 * j;
    let low = elements[e];
    if e + 1 < elements.len() {
        joined(low, elements[e + 1])
    } else {
        joined(low, 0)
    }
}

// Writes every byte of the packed elements.
fn pack_all(elements: &[u8], bytes: &mut [u8])
    requires { (length bytes.old ≡ packed_bytes (length elements.now)) × (in_field elements.now ≡ true) }
    ensures { bytes.new ≡ packed elements.now }
{
    for j in 0..bytes.len() {
        bytes[j] = byte_of(elements, j);
    }
}

// Writes every element that there is room for.
// Like pack_all, one loop over another step: no plainer.
fn unpack_all(bytes: &[u8], elements: &mut [u8])
    requires { length bytes.now ≡ packed_bytes (length elements.old) }
    ensures { elements.new ≡ unpacked (length elements.old) bytes.now }
{
    for e in 0..elements.len() {
        elements[e] = element(bytes, e);
    }
}

// The elements of n bytes of a packed stream, from byte `from` on, become dst[0..2·n], one to a byte.
pub fn spread(dst: &mut [u8], stream: &[u8], from: usize, n: usize)
    requires { (2 * n ≤ length dst.old) × (from + n ≤ length stream.now) }
    ensures { Spread stream.now from n dst.old dst.new }
{
    for k in 0..n {
        let b = stream[from + k];
        dst[2 * k] = low_half(b);
        dst[2 * k + 1] = high_half(b);
    }
}
