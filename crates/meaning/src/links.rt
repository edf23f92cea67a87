// Links between references of equal meaning, and notes of references that differ: a number for each reference.
ghost use Rattle.std.specs.Prelude.{◌≡◌, ◌≤◌, ◌<◌, eqb};
ghost use Rattle.meaning.specs.Links.{link_of, some_link, note_of, Falls, Led, Joins, Parts};

// A number below is a link; one from here on is a note, and so much above the reference that it names.
// Both in one number of 16 bits, and 0 for none: the memory is fixed, and 64 KiB of it are cleared for a question.
// So as many can be linked as a symbol of 16,384 bytes may count, and one; those past it are compared too.
pub const NOTES: usize = 32_768;

// As many references can be linked.
pub const LINKS: usize = NOTES;

// The link of p, if it has one.
fn next(links: &[u16], p: usize) -> Option<usize>
    requires { Falls links.now }
    ensures { result ≡ some_link (link_of links.now p) }
{
    let v = usize::from(*links.get(p.checked_sub(1)?)?);
    if 0 < v && v < NOTES { Some(v) } else { None }
}

// Links x to y, where there is room for it.
fn point(links: &mut [u16], x: usize, y: usize)
    requires { y < x }
    ensures { Joins links.old links.new x y }
{
    if x <= links.len() && y < NOTES {
        links[x - 1] = y as u16;
    }
}

// Where the links lead from r. What is passed on the way is linked past its next, so that no way stays long.
pub fn find(links: &mut [u16], r: usize) -> usize
    requires { Falls links.old }
    ensures { Led links.old links.new r result }
{
    let mut p = r;
    while let Some(y) = next(links, p) {
        let Some(z) = next(links, y) else {
            return y;
        };
        point(links, p, z);
        p = z;
    }
    p
}

// Links the larger of the two to the smaller.
pub fn link(links: &mut [u16], x: usize, y: usize)
    requires { x ≡ y → ⊥ }
    ensures { Joins links.old links.new x y }
{
    if x < y {
        point(links, y, x);
    } else {
        point(links, x, y);
    }
}

// Notes that y differs from x, where there is room for it: what is compared next may come to the same two again.
pub fn note(links: &mut [u16], x: usize, y: usize)
    requires { 1 ≤ y }
    ensures { Parts links.old links.new x y }
{
    if y <= links.len() && x < NOTES {
        links[y - 1] = (NOTES + x) as u16;
    }
}

// Whether it is noted that y differs from x.
pub fn noted(links: &[u16], x: usize, y: usize) -> bool
    requires { (1 ≤ x) × (1 ≤ y) × Falls links.now }
    ensures { result ≡ eqb (note_of links.now y) x }
{
    match links.get(y - 1) {
        Some(v) => usize::from(*v).saturating_sub(NOTES) == x,
        None => false,
    }
}
