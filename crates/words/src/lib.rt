// Words of 32 bits, little-endian, at any offset of a run of bytes.
#![tactic(auto)]

ghost use Rattle.std.specs.Prelude.{◌≡◌, ◌+◌, ◌≤◌, length};
ghost use Rattle.words.specs.Word.{word_at, put_at};

// The word whose four bytes start at `at`.
#[tactic(auto, unfolding(crate::specs::Word::word_at))]
pub fn word(bytes: &[u8], at: usize) -> u32
    requires { at + 4 ≤ length bytes.now }
    ensures { result ≡ word_at bytes.now at }
{
    u32::from_le_bytes([bytes[at], bytes[at + 1], bytes[at + 2], bytes[at + 3]])
}

// Writes the word into the four bytes from `at` on; no other byte changes.
#[tactic(auto, unfolding(crate::specs::Word::put_at))]
pub fn put_word(bytes: &mut [u8], at: usize, value: u32)
    requires { at + 4 ≤ length bytes.old }
    ensures { bytes.new ≡ put_at bytes.old at value }
{
    [bytes[at], bytes[at + 1], bytes[at + 2], bytes[at + 3]] = value.to_le_bytes();
}
