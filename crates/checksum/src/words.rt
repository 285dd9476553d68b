ghost use Rattle.std.specs.Prelude.{◌≡◌, ◌+◌, ◌≤◌, length};
ghost use Rattle.checksum.specs.Rows.{word_at};

// The 32-bit number at a place, most significant byte first.
pub fn be32(row: &[u8], at: usize) -> u32
    requires { at + 4 ≤ length row.now }
    ensures { result ≡ word_at row.now at }
{
    u32::from_be_bytes([row[at], row[at + 1], row[at + 2], row[at + 3]])
}
