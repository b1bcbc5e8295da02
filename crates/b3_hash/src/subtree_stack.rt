// The chunks that an incremental hash has closed (BLAKE3 (2020), 5.1.2).

ghost use Rattle.std.specs.Prelude.{◌≡◌, ℕ, ◌+◌, ◌-◌, ◌*◌, ◌/◌, ◌%◌, ◌^◌, ◌<◌, ◌≤◌, [], ◌++◌, List, count_ones, drop, max, IfSome};
ghost use Rattle.std.specs.Prelude.{length};
ghost use Rattle.arrayvec.specs.ArrayVec.{array_vec_len};
ghost use Rattle.b3_core.specs.declared.modes.Mode.{Mode};
ghost use Rattle.b3_core.specs.Chunks.{chaining_value_at};
ghost use Rattle.b3_hash.specs.Stacks.{stack_of, subtree_chaining};

use arrayvec::ArrayVec;
use b3_core::{
    BLOCK_LEN, CHUNK_LEN, Mode, Node, chain_chunks, chain_chunks_beside, parent_node, top,
};

// An input of fewer than 2^64 bytes has at most 2^54 chunks, of which the last is not closed: so the
// number of closed chunks has at most 54 binary digits.
const MAX_DEPTH: usize = 54;

// How many bytes eight chunks have.
const FEW_LEN: usize = 8 * CHUNK_LEN;

// The last subtree of some bytes, by its bytes and its level: and of a chunk the chaining value that reaches its last
// block, where that is known.
#[derive(Drop)]
pub(crate) struct LastSubtree<'a> {
    pub(crate) bytes: &'a [u8],
    pub(crate) level: u32,
    pub(crate) reached: Option<[u32; 8]>,
}

// How many chunks are closed, and the chaining values of the full subtrees that these make up: one for
// each binary digit of their number that is one, the largest at the bottom of the stack.
#[derive(Drop)]
pub(crate) struct SubtreeStack {
    pub(crate) chunks: u64,
    values: ArrayVec<[u32; 8], MAX_DEPTH>,
    ghost few: { chunks < 2 ^ 54 },
    ghost one_for_each_digit: { array_vec_len values ≡ count_ones chunks },
}

// The number of bytes of 2^level chunks.
#[inline]
pub(crate) fn subtree_len(level: u32) -> u64
    requires { level < 54 }
    ensures value { result ≡ 1024 * 2 ^ level }
    ensures some { 0 < result }
{
    (CHUNK_LEN as u64) << level
}

impl SubtreeStack {
    ghost use Rattle.b3_core.specs.Tree.{top};

    // No chunks.
    pub(crate) fn new() -> SubtreeStack
        ensures chunks { result.chunks ≡ 0 }
        ensures values { result.values.items ≡ [] }
    {
        SubtreeStack {
            chunks: 0,
            values: ArrayVec::new(),
        }
    }

    // The same chunks.
    pub(crate) fn copied(&self) -> SubtreeStack
        ensures chunks { result.chunks ≡ self.now.chunks }
        ensures values { result.values.items ≡ self.now.values.items }
    {
        let mut values = ArrayVec::new();
        values
            .try_extend_from_slice(self.values.as_slice())
            .unwrap();
        SubtreeStack {
            chunks: self.chunks,
            values,
        }
    }

    // Takes in the next 2^level chunks by the chaining value of their subtree: so many chunks make one
    // only where they begin at a multiple of their number.
    pub(crate) fn push(&mut self, mode: &Mode, value: [u32; 8], level: u32)
        requires level { level < 54 }
        requires few { self.old.chunks + 2 ^ level < 2 ^ 54 }
        requires aligned { self.old.chunks % 2 ^ level ≡ 0 }
        ensures chunks { self.new.chunks ≡ self.old.chunks + 2 ^ level }
        ensures values { (input : List ℕ) → 1024 * (self.old.chunks + 2 ^ level) ≤ length input
            → value ≡ subtree_chaining mode.now level input (self.old.chunks / 2 ^ level)
            → self.old.values.items ≡ stack_of 54 0 mode.now input self.old.chunks
            → self.new.values.items ≡ stack_of 54 0 mode.now input (self.old.chunks + 2 ^ level) }
    {
        let size = 1u64 << level;
        push_merged(&mut self.values, mode, self.chunks / size + 1, value);
        self.chunks += size;
    }

    // The level of the largest full subtree that begins where the closed chunks end and has its chunks
    // among the next `len` bytes; 0 where these are less than a chunk.
    fn next_level(&self, len: usize) -> u32
        requires { 1024 * self.now.chunks + len < 2 ^ 64 }
        ensures level { result < 54 }
        ensures aligned { self.now.chunks % 2 ^ result ≡ 0 }
        ensures within { 1024 * 2 ^ result ≤ max len 1024 }
        ensures largest { self.now.chunks % 2 ^ (result + 1) ≡ 0 → len < 1024 * 2 ^ (result + 1) }
    {
        let full = (len / CHUNK_LEN).max(1);
        full.ilog2().min(self.chunks.trailing_zeros())
    }

    // Takes in the subtrees of the bytes but the last, and hands back the last. At level 0 it is a chunk, which may be
    // short; else it is full.
    pub(crate) fn push_all_but_last<'a>(&mut self, mode: &Mode, bytes: &'a [u8]) -> LastSubtree<'a>
        requires { 1024 * self.old.chunks + length bytes.now < 2 ^ 64 }
        ensures forward { self.old.chunks ≤ self.new.chunks }
        ensures len { 1024 * self.new.chunks + length result.bytes.now ≡ 1024 * self.old.chunks + length bytes.now }
        ensures rest { result.bytes.now ≡ drop (1024 * (self.new.chunks - self.old.chunks)) bytes.now }
        ensures some { 0 < length bytes.now → 0 < length result.bytes.now }
        ensures last { length result.bytes.now ≤ 1024 * 2 ^ result.level }
        ensures full { 0 < result.level → length result.bytes.now ≡ 1024 * 2 ^ result.level }
        ensures level { result.level < 54 }
        ensures aligned { self.new.chunks % 2 ^ result.level ≡ 0 }
        ensures reached { IfSome result.reached (λ h. (result.level ≡ 0) × (0 < length result.bytes.now)
            × (h ≡ chaining_value_at mode.now self.new.chunks result.bytes.now ((length result.bytes.now - 1) / 64))) }
        ensures values { (before : List ℕ) → length before ≡ 1024 * self.old.chunks
            → self.old.values.items ≡ stack_of 54 0 mode.now before self.old.chunks
            → self.new.values.items ≡ stack_of 54 0 mode.now (before ++ bytes.now) self.new.chunks }
    {
        let mut rest = bytes;
        let mut level = self.next_level(rest.len());
        // Not `>=`: a full last subtree is not closed, since it is the root where nothing follows.
        while rest.len() as u64 > subtree_len(level) {
            if rest.len() <= FEW_LEN {
                return self.push_few(mode, rest);
            }
            let count = self.push_first(mode, rest, level);
            let (_, others) = rest.split_at(CHUNK_LEN * count);
            rest = others;
            level = self.next_level(rest.len());
        }
        LastSubtree {
            bytes: rest,
            level,
            reached: None,
        }
    }

    // Takes in all chunks but the last, of bytes that have two to eight, and hands back the last. Its blocks but its last
    // one are chained beside the others.
    fn push_few<'a>(&mut self, mode: &Mode, bytes: &'a [u8]) -> LastSubtree<'a>
        requires fits { 1024 * self.old.chunks + length bytes.now < 2 ^ 64 }
        requires more { 1024 < length bytes.now }
        requires few { length bytes.now ≤ 8192 }
        ensures forward { self.old.chunks ≤ self.new.chunks }
        ensures len { 1024 * self.new.chunks + length result.bytes.now ≡ 1024 * self.old.chunks + length bytes.now }
        ensures rest { result.bytes.now ≡ drop (1024 * (self.new.chunks - self.old.chunks)) bytes.now }
        ensures some { 0 < length result.bytes.now }
        ensures last { length result.bytes.now ≤ 1024 }
        ensures level { result.level ≡ 0 }
        ensures reached { IfSome result.reached (λ h.
            h ≡ chaining_value_at mode.now self.new.chunks result.bytes.now ((length result.bytes.now - 1) / 64)) }
        ensures values { (input : List ℕ) → bytes.now ≡ drop (1024 * self.old.chunks) input
            → self.old.values.items ≡ stack_of 54 0 mode.now input self.old.chunks
            → self.new.values.items ≡ stack_of 54 0 mode.now input self.new.chunks }
    {
        let before = (bytes.len() - 1) / CHUNK_LEN;
        let (_, last) = bytes.split_at(CHUNK_LEN * before);
        let blocks = (last.len() - 1) / BLOCK_LEN;
        let values = chain_chunks_beside(mode, self.chunks, bytes, before, blocks);
        'chunks: for j in 0..before {
            self.push(mode, values[j], 0);
        }
        LastSubtree {
            bytes: last,
            level: 0,
            reached: Some(values[before]),
        }
    }

    // Takes in the first of more than eight chunks, and answers how many these are: a subtree of this level, or seven chunks
    // together.
    fn push_first(&mut self, mode: &Mode, bytes: &[u8], level: u32) -> usize
        requires level { level < 54 }
        requires fits { 1024 * self.old.chunks + length bytes.now < 2 ^ 64 }
        requires aligned { self.old.chunks % 2 ^ level ≡ 0 }
        requires subtree { 1024 * 2 ^ level < length bytes.now }
        requires more { 8192 < length bytes.now }
        ensures some { 0 < result }
        ensures more { 1024 * result < length bytes.now }
        ensures chunks { self.new.chunks ≡ self.old.chunks + result }
        ensures values { (input : List ℕ) → bytes.now ≡ drop (1024 * self.old.chunks) input
            → self.old.values.items ≡ stack_of 54 0 mode.now input self.old.chunks
            → self.new.values.items ≡ stack_of 54 0 mode.now input self.new.chunks }
    {
        let first = &bytes[..subtree_len(level) as usize];
        // Where eight chunks or fewer are left after the first, those go together.
        if self.chunks % 8 == 1 && bytes.len() - first.len() > FEW_LEN {
            return self.push_seven(mode, bytes);
        }
        let value = top(mode, self.chunks, first).chaining();
        self.push(mode, value, level);
        first.len() / CHUNK_LEN
    }

    // Takes in seven chunks, those before a multiple of eight: their chaining values are made together, which takes less
    // time than the subtrees of one, two and four chunks one after the other. Of fewer it does not at each level of x86-64.
    fn push_seven(&mut self, mode: &Mode, bytes: &[u8]) -> usize
        requires fits { 1024 * self.old.chunks + length bytes.now < 2 ^ 64 }
        requires more { 8192 < length bytes.now }
        ensures some { 0 < result }
        ensures more { 1024 * result < length bytes.now }
        ensures chunks { self.new.chunks ≡ self.old.chunks + result }
        ensures values { (input : List ℕ) → bytes.now ≡ drop (1024 * self.old.chunks) input
            → self.old.values.items ≡ stack_of 54 0 mode.now input self.old.chunks
            → self.new.values.items ≡ stack_of 54 0 mode.now input self.new.chunks }
    {
        let count = 7;
        let values = chain_chunks(mode, self.chunks, &bytes[..CHUNK_LEN * count]);
        'chunks: for j in 0..count {
            self.push(mode, values[j], 0);
        }
        count
    }

    // The root of the tree over the closed chunks and a last node, which is the top of all bytes after
    // them. These are as many chunks as some level has, or fewer, and the closed chunks are a multiple of
    // that level's: so the last node is the right child of the subtree on the top of the stack. No bytes
    // stand after the closed chunks only where there are none.
    pub(crate) fn root(&self, mode: &Mode, last: Node) -> Node
        ensures { (level : ℕ) (input : List ℕ) → level ≤ 54 → self.now.chunks % 2 ^ level ≡ 0
            → self.now.values.items ≡ stack_of 54 0 mode.now input self.now.chunks
            → last ≡ top mode.now self.now.chunks (drop (1024 * self.now.chunks) input)
            → (0 < self.now.chunks → 1024 * self.now.chunks < length input)
            → length input ≤ 1024 * (self.now.chunks + 2 ^ level)
            → result ≡ top mode.now 0 input }
    {
        let mut node = last;
        for value in self.values.iter().rev() {
            let right = node.chaining();
            node = parent_node(mode, value, &right);
        }
        node
    }
}

// Pushes the chaining value of the subtree that makes the number of subtrees of its size `total`. Each
// low binary zero of that number stands for two subtrees of one size, which first become one.
fn push_merged(values: &mut ArrayVec<[u32; 8], MAX_DEPTH>, mode: &Mode, total: u64, last: [u32; 8])
    requires some { 0 < total }
    requires few { total < 2 ^ 54 }
    requires len { array_vec_len values.old ≡ count_ones (total - 1) }
    ensures len { array_vec_len values.new ≡ count_ones total }
    ensures values { (digits base : ℕ) (input : List ℕ) → total < 2 ^ digits → 1024 * 2 ^ base * total ≤ length input
        → last ≡ subtree_chaining mode.now base input (total - 1)
        → values.old.items ≡ stack_of digits base mode.now input (total - 1)
        → values.new.items ≡ stack_of digits base mode.now input total }
{
    let mut value = last;
    'merges: for _ in 0..total.trailing_zeros() {
        let left = values.pop().unwrap();
        value = parent_node(mode, &left, &value).chaining();
    }
    values.push(value);
}
