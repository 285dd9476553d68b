// The 128 bytes of a block from its fields, and the fields from the bytes.
ghost use Rattle.std.specs.Prelude.{◌≡◌, ℕ, ◌+◌, ◌*◌, ◌^◌, ◌<◌, ◌≤◌, List, ◌++◌, length, take};
ghost use Rattle.std.specs.Simd.Lanes.{Each1};
ghost use Rattle.block.specs.Layout.{bytes_of, bytes_of_all, encoded, sealed_by, decoded, words_at, owner_of, version_of, Sound};

use crate::shapes::Fields;
use checksum::{Checksum, be32};
use std::array;

// Writes bytes at a place; the clause speaks of the front of the row, up to where the bytes end.
fn put(out: &mut [u8], at: usize, src: &[u8])
    requires { at + length src.now ≤ length out.old }
    ensures { take (at + length src.now) out.new ≡ take at out.old ++ src.now }
{
    out[at..at + src.len()].copy_from_slice(src);
}

fn put_word(out: &mut [u8], at: usize, n: u32)
    requires { at + 4 ≤ length out.old }
    ensures { take (at + 4) out.new ≡ take at out.old ++ bytes_of n }
{
    put(out, at, &n.to_be_bytes());
}

fn put_words(out: &mut [u8], at: usize, ns: &[u32])
    requires { at + 4 * length ns.now ≤ length out.old }
    ensures fit { Each1 (λ n. n < 2 ^ 32) ns.now }
    ensures front { take (at + 4 * length ns.now) out.new ≡ take at out.old ++ bytes_of_all ns.now }
{
    for (i, n) in ns.iter().enumerate() {
        put_word(out, at + 4 * i, *n);
    }
}

fn put_fields(fields: &Fields, sum: u32, out: &mut [u8])
    requires { length out.old ≡ 128 }
    ensures is { out.new ≡ encoded fields.now sum }
    ensures sound { Sound fields.now }
{
    put(out, 0, &fields.payload);
    put(
        out,
        80,
        &[fields.kind, fields.mark, fields.slot, fields.cards],
    );
    put_word(out, 84, fields.block);
    put_word(out, 88, fields.owner);
    put_words(out, 92, &fields.versions);
    put_word(out, 120, fields.tag);
    put_word(out, 124, sum);
}

// The bytes of the fields and a checksum; decoding gives the fields again.
pub fn encode(fields: &Fields, sum: u32) -> [u8; 128]
    ensures is { result ≡ encoded fields.now sum }
    ensures back { decoded result ≡ fields.now }
{
    let mut out = [0u8; 128];
    put_fields(fields, sum, &mut out);
    out
}

// The block of the fields under a checksum.
pub fn seal<C: Checksum>(fields: &Fields) -> [u8; 128]
    ensures { result ≡ sealed_by C.meaning fields.now }
{
    let mut out = [0u8; 128];
    put_fields(fields, 0, &mut out);
    let sum = C::sum(&out);
    put_word(&mut out, 124, sum);
    out
}

fn versions(block: &[u8; 128]) -> [u32; 7]
    ensures { result ≡ words_at 7 block.now 92 }
{
    array::from_fn(|k| be32(block, 92 + 4 * k))
}

// The fields of a block.
pub fn decode(block: &[u8; 128]) -> Fields
    ensures { result ≡ decoded block.now }
{
    let mut payload = [0u8; 80];
    payload.copy_from_slice(&block[0..80]);
    Fields {
        payload,
        kind: block[80],
        mark: block[81],
        slot: block[82],
        cards: block[83],
        block: be32(block, 84),
        owner: be32(block, 88),
        versions: versions(block),
        tag: be32(block, 120),
    }
}

// The owner of a block.
pub fn owner(block: &[u8; 128]) -> u32
    ensures { result ≡ owner_of block.now }
{
    be32(block, 88)
}

// Version k of the seven of a block.
pub fn version(block: &[u8; 128], k: u32) -> u32
    requires { k < 7 }
    ensures { result ≡ version_of block.now k }
{
    be32(block, 92 + 4 * k as usize)
}
