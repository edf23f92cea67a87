// What a reading goes by.
ghost use Rattle.scan.specs.Limits.{Short};

// The symbol and the budgets of a reading. A symbol is short, since places stand in sixteen bits.
#[derive(Clone, Copy)]
pub struct Reader<'a> {
    pub s: &'a [u8],
    pub depth: u16,
    pub room: u16,
    pub ghost short: { Short s.now },
}
