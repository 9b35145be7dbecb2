// Pushes made records into windows. Standard input has blocks of records in the form of compare/oracle/src/bin/window.rs, each with the
// checksum that a second model gives for it: of the refusal, words, lost, iterations, corrected and doubtful after each record, and of what is
// left in the ring. In a series, which begins with an empty window, the figures after each record are also compared with sums made afresh here
// over the last finished records.
#![tactic(auto)]

use arrayvec::ArrayVec;
use std::fmt;
use std::fmt::Write;
use vectors::{Compared, Stdout, checksum, mixed};
use window::{Record, Window};

// Numbers of a window that was altered.
const ALTERED: [u64; 16] = [
    0,
    1,
    2,
    6,
    7,
    8,
    63,
    64,
    65,
    4095,
    4096,
    4097,
    4294967296,
    9223372036854775808,
    18446744073709551614,
    18446744073709551615,
];

// The BCH result of a lost word, written out and not `outcome::LOST`: the sums made afresh ask the code under test nothing.
const LOST: u32 = 4294967295;

// The state of a word that left checks unmet, written out for the same reason.
const UNMET: u32 = 3;

// Whether a record is of a finished word. The numbers 2 and 3, and not `outcome::is_finished`, for the same reason.
fn is_finished(of: Record) -> bool {
    matches!(of.state, 2 | 3)
}

// `mixed` of `vectors`, its high bits folded into the low ones, from which the palettes' codes are drawn.
fn folded(x: u32) -> u32 {
    let a = mixed(x);
    a ^ (a >> 15)
}

// A number that `x` makes.
fn stir(x: u32) -> u32 {
    folded(folded(folded(x)))
}

// What a byte of a palette stands for.
fn value(code: u8, any: u32) -> u32 {
    match code {
        0..=251 => u32::from(code),
        252 => any % 65536,
        253 => u32::MAX - 1,
        254 => u32::MAX,
        255 => any,
    }
}

// One of the eight values that a palette has for a field.
fn drawn(codes: [u8; 8], x: u32) -> u32 {
    let v = stir(x);
    value(codes[(v % 8) as usize], stir(v))
}

// What a ring holds at first: a third of it lost words and states of finished ones.
fn garbage(x: u32) -> u32 {
    let v = stir(x);
    match v % 6 {
        0 => LOST,
        1 => 2 + v / 6 % 2,
        _ => v,
    }
}

fn any_altered(x: u32) -> u64 {
    ALTERED[(stir(x) % 16) as usize]
}

// What a block does: it goes on with the series before, begins one, begins with a window that was altered, or goes on with that.
#[derive(Clone, Copy, Debug, PartialEq, Eq)]
enum Kind {
    Further,
    Series,
    Altered,
    AlteredFurther,
}

impl From<u32> for Kind {
    // By the number that the input has.
    fn from(number: u32) -> Kind {
        match number {
            0 => Kind::Further,
            1 => Kind::Series,
            2 => Kind::Altered,
            _ => Kind::AlteredFurther,
        }
    }
}

impl Kind {
    fn in_series(self) -> bool {
        matches!(self, Kind::Further | Kind::Series)
    }
}

// A block of records, which its index and a palette make: codes of the states, of the iterations and of the BCH results.
#[derive(Clone, Copy)]
struct Block<'a> {
    index: u16,
    kind: Kind,
    palette: &'a [[u8; 8]; 3],
    records: u32,
    width: u32,
    room: usize,
    sum: Checksum,
}

impl<'a> Block<'a> {
    // Sixteen bytes: width, ring, kind and palette and records, checksum.
    fn read(index: usize, bytes: &[u8; 16], palettes: &'a [[[u8; 8]; 3]]) -> Option<Block<'a>> {
        let (numbers, _) = bytes.as_chunks();
        let [width, room, form, sum] = numbers.first_chunk::<4>()?.map(u32::from_le_bytes);
        Some(Block {
            index: (index % 65536) as u16,
            kind: Kind::from(form % 4),
            palette: palettes.get((form / 4 % 16) as usize)?,
            records: form / 64,
            width,
            room: room as usize,
            sum: Checksum(sum),
        })
    }

    // Record i.
    fn record(&self, i: u32) -> Record {
        let [states, iterations, results] = *self.palette;
        let x = u32::from(self.index) * 4096 + i % 1024 * 4;
        Record {
            state: drawn(states, x),
            iterations: drawn(iterations, x + 1),
            bch: drawn(results, x + 2),
        }
    }

    // The window of a block that begins with an altered one.
    fn altered(&self) -> Window {
        let x = u32::from(self.index) * 4096;
        Window {
            at: any_altered(x + 3),
            words: any_altered(x + 7),
            lost: any_altered(x + 11),
            iterations: any_altered(x + 15),
            corrected: any_altered(x + 19),
            doubtful: any_altered(x + 23),
        }
    }

    fn fill(&self, ring: &mut [u32]) {
        let x = 2147483648 + u32::from(self.index) * 16384;
        for (j, place) in ring.iter_mut().enumerate() {
            *place = garbage(x + (j % 16384) as u32);
        }
    }
}

// What a window shows.
#[derive(Clone, Copy, Debug, PartialEq, Eq, Default)]
struct Figures {
    words: u64,
    lost: u64,
    iterations: u64,
    corrected: u64,
    doubtful: u64,
}

impl From<Window> for Figures {
    fn from(of: Window) -> Figures {
        let Window {
            words,
            lost,
            iterations,
            corrected,
            doubtful,
            ..
        } = of;
        Figures {
            words,
            lost,
            iterations,
            corrected,
            doubtful,
        }
    }
}

// What of a finished record is summed up afresh, in one number: its iterations and, above them, its BCH result.
fn packed(of: Record) -> u64 {
    u64::from(of.iterations) + (u64::from(of.bch) << 32)
}

// Whether a finished record is doubtful: 1 or 0.
fn doubtful(of: Record) -> u8 {
    u8::from(of.state == UNMET && of.bch != LOST)
}

impl Figures {
    // Those with one record more, but for the doubtful.
    fn with(self, packed: u64) -> Figures {
        let result = (packed >> 32) as u32;
        let lost = result == LOST;
        let corrected = if lost { 0 } else { result };
        Figures {
            words: self.words.wrapping_add(1),
            lost: self.lost.wrapping_add(u64::from(lost)),
            iterations: self.iterations.wrapping_add(packed % 4294967296),
            corrected: self.corrected.wrapping_add(u64::from(corrected)),
            doubtful: self.doubtful,
        }
    }
}

#[derive(Clone, Copy, Debug, PartialEq, Eq, Default)]
struct Checksum(u32);

impl Checksum {
    // That with one number more.
    fn with(self, v: u32) -> Checksum {
        Checksum(checksum(self.0, v))
    }

    // That with the two halves of a number, the lower first.
    fn with_wide(self, v: u64) -> Checksum {
        self.with((v % 4294967296) as u32).with((v >> 32) as u32)
    }

    fn with_figures(self, of: Figures) -> Checksum {
        let sum = self.with_wide(of.words).with_wide(of.lost);
        let sum = sum.with_wide(of.iterations).with_wide(of.corrected);
        sum.with_wide(of.doubtful)
    }

    // That with the ring from a place on.
    fn with_ring(self, ring: &[u32], from: usize) -> Checksum {
        ring.iter().skip(from).fold(self, |sum, &v| sum.with(v))
    }
}

// The first of the records, or of the blocks, that differs.
fn show_first(block: u16, record: u32) {
    let mut to = Stdout;
    let _ = writeln!(to, "first difference in block, record {block}, {record}");
}

// The window, the finished records since a series began, the checksum since a block began, and what was compared. (Of a finished record eight bytes, and
// one that says whether it is doubtful: of the records themselves the sums made afresh took twice the time.)
#[derive(Drop, Default)]
struct Progress {
    window: Window,
    finished: ArrayVec<u64, 24000>,
    doubtful: ArrayVec<u8, 24000>,
    sum: Checksum,
    records: Compared,
    blocks: Compared,
}

impl Progress {
    fn show(&self) -> fmt::Result {
        let mut to = Stdout;
        let Compared { all, differ } = self.records;
        writeln!(
            to,
            "{all} records compared with sums made afresh, {differ} differ"
        )?;
        let Compared { all, differ } = self.blocks;
        writeln!(
            to,
            "{all} blocks compared with the second model, {differ} differ"
        )
    }

    // The figures over the last `width` finished records.
    fn afresh(&self, width: usize) -> Figures {
        let finished = self.finished.as_slice();
        let from = finished.len().saturating_sub(width);
        let figures = finished[from..]
            .iter()
            .fold(Figures::default(), |figures, of| figures.with(*of));
        // There is room for 24,000: a number of sixteen bits has space for them, and eight go at a time.
        let doubtful = self.doubtful.as_slice();
        let from = doubtful.len().saturating_sub(width);
        let doubtful = doubtful[from..]
            .iter()
            .fold(0, |n: u16, of| n.wrapping_add(u16::from(*of)));
        Figures {
            doubtful: u64::from(doubtful),
            ..figures
        }
    }
}

// A block, its ring, and what was before it.
#[derive(Drop)]
struct Replay<'a> {
    of: Block<'a>,
    ring: &'a mut [u32],
    at: &'a mut Progress,
}

impl Replay<'_> {
    // What the block begins with, unless it goes on with what the one before left.
    fn begin(&mut self) {
        self.at.window = match self.of.kind {
            Kind::Further | Kind::AlteredFurther => return,
            Kind::Series => Window::default(),
            Kind::Altered => self.of.altered(),
        };
        self.of.fill(self.ring);
        self.at.finished.clear();
        self.at.doubtful.clear();
    }

    // Record i, pushed and compared.
    fn push(&mut self, i: u32) {
        let new = self.of.record(i);
        // A number, as the second model sums it up: 0 where nothing is refused.
        let refused = match window::push(self.of.width, self.at.window, new, self.ring) {
            Ok(window) => {
                self.at.window = window;
                0
            }
            Err(refusal) => refusal.number(),
        };
        if is_finished(new) {
            let _ = self.at.finished.try_push(packed(new));
            let _ = self.at.doubtful.try_push(doubtful(new));
        }
        let shown = Figures::from(self.at.window);
        self.at.sum = self.at.sum.with(refused).with_figures(shown);
        if self.of.kind.in_series() {
            let right = shown == self.at.afresh(self.of.width as usize);
            if self.at.records.count(right) {
                show_first(self.of.index, i);
            }
        }
    }

    // The checksum: in a series the ring's tail is in it, else all of the ring and the window's place. (No width of 65,536 or more is accepted:
    // its low half says where the tail begins.)
    fn end(&mut self) {
        let tail = 3 * (self.of.width % 65536) as usize;
        let sum = if self.of.kind.in_series() {
            self.at.sum.with_ring(self.ring, tail)
        } else {
            self.at
                .sum
                .with_wide(self.at.window.at)
                .with_ring(self.ring, 0)
        };
        if self.at.blocks.count(sum == self.of.sum) {
            show_first(self.of.index, self.of.records);
        }
        self.at.sum = Checksum::default();
    }

    fn run(&mut self) {
        self.begin();
        for i in 0..self.of.records {
            self.push(i);
        }
        self.end();
    }
}

// Every block whose ring there is room for. Palettes of 24 bytes stand in front, in 256 bytes, and blocks behind these. A block may name one of
// sixteen palettes: the last six are what stands there, and zeros behind the input.
fn replay_all(input: &[u8], ring: &mut [u32], at: &mut Progress) {
    let Some((_, rest)) = input.split_first_chunk::<256>() else {
        return;
    };
    let mut front = [0; 384];
    let n = input.len().min(384);
    front[..n].copy_from_slice(&input[..n]);
    let (rows, _) = front.as_chunks::<8>();
    let (palettes, _) = rows.as_chunks::<3>();
    let (blocks, _) = rest.as_chunks::<16>();
    for (index, bytes) in blocks.iter().enumerate() {
        let Some(of) = Block::read(index, bytes, palettes) else {
            continue;
        };
        if of.room <= ring.len() {
            let ring = &mut ring[..of.room];
            Replay { of, ring, at }.run();
        }
    }
}

fn main() {
    let mut input = io::large_buffer();
    let mut ring = [0; 12304];
    let mut at = Progress::default();
    let n = io::read_full(0, &mut input);
    replay_all(&input[..n], &mut ring, &mut at);
    let _ = at.show();
}
