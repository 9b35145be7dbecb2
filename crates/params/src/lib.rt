// Lengths of ISDB-S3 (ARIB STD-B44 v2.1 sections 3.2 to 3.4): the code, the slot, the frame, and the eleven rates r / 120.
#![tactic(auto)]

ghost use Rattle.std.specs.Prelude.{◌≡◌, get_or};
ghost use Rattle.params.specs.Lengths.{rates, k_of, p_of, q_of, data_of};

// LDPC code length.
pub const N_LDPC: u32 = 44880;
// Information bits to a row of the address table.
pub const GROUP: u32 = ldpc_shape::GROUP_U32;
// Slot header bits.
pub const HEADER_BITS: u32 = 176;
// BCH parity bits.
pub const BCH_PARITY_BITS: u32 = 192;
// Stuffing bits.
pub const STUFF_BITS: u32 = 6;
// Slots to a frame, and to an allocation unit.
pub const SLOTS: u32 = 120;

pub const SLOT_UNIT: u32 = 5;
// Symbols of a modulation slot: synchronisation, pilot, and 66 groups of main signal and TMCC.
pub const SYNC_SYMBOLS: u32 = 24;

pub const PILOT_SYMBOLS: u32 = 32;

pub const MAIN_RUN: u32 = 136;

pub const TMCC_RUN: u32 = 4;

pub const RUNS: u32 = 66;

pub const MOD_SLOT: u32 = SYNC_SYMBOLS + PILOT_SYMBOLS + RUNS * (MAIN_RUN + TMCC_RUN);

pub const MAIN_PER_MOD_SLOT: u32 = RUNS * MAIN_RUN;

pub const TMCC_PER_MOD_SLOT: u32 = RUNS * TMCC_RUN;

pub const FRAME_SYMBOLS: u32 = SLOTS * MOD_SLOT;
// TMCC signal and information bits to a frame.
pub const TMCC_SIGNAL_BITS: u32 = 31680;

pub const TMCC_INFO_BITS: u32 = 9422;

// The numerators of the eleven rates.
pub const RATES: [u8; 11] = [41, 49, 61, 73, 81, 89, 93, 97, 101, 105, 109];

// The i-th rate's numerator, and 0 from the twelfth on, where there is none: no Option, for a function that can't fail.
pub fn rate(i: usize) -> u8
    ensures { result ≡ get_or rates i 0 }
{
    RATES.get(i).copied().unwrap_or(0)
}

// LDPC information bits, 374 r. (Any r goes, here and below: a type of the eleven rates would ask more of callers.)
pub fn k_ldpc(r: u8) -> u32
    ensures { result ≡ k_of r }
{
    GROUP * u32::from(r)
}

// Parity checks, n - k. At every r it is the definition's difference of natural numbers, which is 0 where k is more: no test, and no Option for a
// function that can't fail. So in `data_bits`.
pub fn checks(r: u8) -> u32
    ensures { result ≡ p_of r }
{
    N_LDPC.saturating_sub(k_ldpc(r))
}

// q of the parity addressing, 120 - r.
pub fn q(r: u8) -> u32
    ensures { result ≡ q_of r }
{
    checks(r) / GROUP
}

// Main data bits to a slot, k - 176 - 192 - 6.
pub fn data_bits(r: u8) -> u32
    ensures { result ≡ data_of r }
{
    k_ldpc(r).saturating_sub(HEADER_BITS + BCH_PARITY_BITS + STUFF_BITS)
}
