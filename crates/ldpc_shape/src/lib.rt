// The shape of a code, lent as n, the rows' lengths and their addresses, and the refusals 2 to 6.
#![tactic(auto)]

ghost use Rattle.std.specs.Prelude.{◌≡◌, false, cond, eqb, ◌%◌, ◌<◌, ◌≤◌, length, IfOk};
ghost use Rattle.refusal.specs.Number.{number_of};
ghost use Rattle.ldpc_shape.specs.Shape.{sizes_of, total, any_over, bad_length, code_refusal};
ghost use Rattle.ldpc_shape.specs.Counts.{CountsOf};

use refusal::Refusal;

// The bits of a row, and the checks of each residue modulo q: the length of an array, and beside it the number that bits, checks and addresses are
// reckoned with, which are u32s. (A name of its own: the cast stands once, and not at each of its uses.)
pub const GROUP: usize = 374;

pub const GROUP_U32: u32 = GROUP as u32;

// The most that q can be, 44,880 / 374.
pub const MAX_Q: usize = 120;

// The numbers of a code: its length, information bits, checks, P / 374 and edges.
#[derive(Clone, Copy, Debug, PartialEq, Eq)]
pub struct Sizes {
    pub n: usize,
    pub k: usize,
    pub p: usize,
    pub q: usize,
    pub e: usize,
}

// An accepted code: its numbers, its rows' lengths, and their addresses one after the other. C lends these one by one; below `accept` they are a table.
#[derive(Clone, Copy)]
pub struct Table<'a> {
    pub sizes: Sizes,
    pub lens: &'a [u32],
    pub addrs: &'a [u16],
    ghost accepted: { code_refusal sizes.n lens.now addrs.now ≡ 0 },
    ghost numbers: { sizes ≡ sizes_of sizes.n lens.now addrs.now },
}

impl<'a> Table<'a> {
    // The code's table, or the first of the refusals 2 to 6 that applies.
    pub fn accept(n: u32, lens: &'a [u32], addrs: &'a [u16]) -> Result<Table<'a>, Refusal>
        ensures number { number_of result ≡ code_refusal n lens.now addrs.now }
        ensures table { IfOk result (λ t. (t.sizes ≡ sizes_of n lens.now addrs.now)
            × (t.lens.now ≡ lens.now)
            × (t.addrs.now ≡ addrs.now)) }
    {
        if bad_length(n) {
            return Err(Refusal::N);
        }
        if (n / GROUP_U32) as usize <= lens.len() {
            return Err(Refusal::Rows);
        }
        if any_over(128, lens) {
            return Err(Refusal::RowLength);
        }
        if sum_of(lens) != addrs.len() {
            return Err(Refusal::Addresses);
        }
        let q = n / GROUP_U32 - lens.len() as u32;
        let r = counts(addrs, q);
        if any_over(126, &r[..q as usize]) {
            return Err(Refusal::EqualAddresses);
        }
        let sizes = sizes_of(n, lens, addrs);
        Ok(Table { sizes, lens, addrs })
    }
}

// The address's residue modulo q. (q goes as a number, here and in `counts`: ldpc_check's `CheckAt`, ldpc_lists' `Checks` and
// ldpc_encode's `Class` each have one, whose bounds their ghost fields give; the residue needs only that q is no 0.)
pub fn residue(a: u16, q: u32) -> usize
    requires { 0 < q }
    ensures { (result ≡ a % q) × (result < q) }
{
    (u32::from(a) % q) as usize
}

// Whether n is no length of a code.
fn bad_length(n: u32) -> bool
    ensures { result ≡ bad_length n }
{
    n == 0 || n % GROUP_U32 != 0 || 44880 < n
}

// Whether one of the numbers is above the limit.
fn any_over(limit: u32, xs: &[u32]) -> bool
    ensures { result ≡ any_over limit xs.now }
{
    xs.iter().any(|&x| limit < x)
}

// What the row lengths add up to.
fn sum_of(lens: &[u32]) -> usize
    requires { (length lens.now ≤ 119) × (any_over 128 lens.now ≡ false) }
    ensures { result ≡ total lens.now }
{
    lens.iter().map(|&l| l as usize).sum()
}

// How many addresses are l modulo q, for each l below q; zeros from q on. (An array for the most that q can be: memory is fixed, and each caller has q already.
// No ArrayVec: it grows from the front, and this is filled by place.)
pub fn counts(addrs: &[u16], q: u32) -> [u32; MAX_Q]
    requires { (0 < q) × (q ≤ 120) × (length addrs.now ≤ 15360) }
    ensures { CountsOf result q addrs.now }
{
    let mut r = [0u32; MAX_Q];
    for &a in addrs {
        r[residue(a, q)] += 1;
    }
    r
}

// How many parity bits check c has: its own and the one before, which the first has not. (Only the number: they are written out where they are used.)
pub fn parity_bits(c: usize) -> u32
    ensures { (result ≡ cond (eqb c 0) 1 2) × (result ≤ 2) }
{
    if 0 < c { 2 } else { 1 }
}

// The numbers of an accepted code.
fn sizes_of(n: u32, lens: &[u32], addrs: &[u16]) -> Sizes
    requires { code_refusal n lens.now addrs.now ≡ 0 }
    ensures { result ≡ sizes_of n lens.now addrs.now }
{
    let n = n as usize;
    let k = GROUP * lens.len();
    let p = n - k;
    Sizes {
        n,
        k,
        p,
        q: p / GROUP,
        e: GROUP * addrs.len() + 2 * p - 1,
    }
}
