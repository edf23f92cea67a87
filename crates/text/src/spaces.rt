// Spaces that the last byte asks for.
ghost use Rattle.std.specs.Prelude.{◌≡◌};
ghost use Rattle.text.specs.Spaces.{after_pre, after_ptr, after_any, not_set, asks_by, space_where};
ghost use Rattle.text.specs.Buffer.{Writes};

use crate::buffer::Buffer;

// The tests of write_space_pre, write_space_ptr, write_space, write_calling_conv and write_tmpl_params.
#[derive(Clone, Copy)]
pub enum Spacing {
    Pre,
    Ptr,
    Any,
    NotSet,
    Close,
}

#[tactic(auto, unfolding(crate::specs::Spaces::after_ptr))]
fn is_after_ptr(l: u32) -> bool
    ensures { result ≡ after_ptr l }
{
    matches!(l, 65..=90 | 97..=122 | 62 | 41)
}

#[tactic(auto, unfolding(crate::specs::Spaces::after_pre, crate::specs::Spaces::after_ptr))]
fn is_after_pre(l: u32) -> bool
    ensures { result ≡ after_pre l }
{
    l == 38 || is_after_ptr(l)
}

#[tactic(auto, unfolding(crate::specs::Spaces::after_any, crate::specs::Spaces::after_pre))]
fn is_after_any(l: u32) -> bool
    ensures { result ≡ after_any l }
{
    l == 42 || is_after_pre(l)
}

#[tactic(auto, unfolding(crate::specs::Spaces::not_set))]
fn is_not_set(l: u32) -> bool
    ensures { result ≡ not_set l }
{
    l != 32 && l != 40
}

impl Spacing {
    // Whether a space is asked for after the last byte l.
    #[tactic(auto, unfolding(crate::specs::Spaces::after_close, crate::specs::Spaces::asks_by))]
    fn is_asked(self, l: u32) -> bool
        ensures { result ≡ asks_by self l }
    {
        match self {
            Spacing::Pre => is_after_pre(l),
            Spacing::Ptr => is_after_ptr(l),
            Spacing::Any => is_after_any(l),
            Spacing::NotSet => is_not_set(l),
            Spacing::Close => l == 62,
        }
    }
}

impl Buffer<'_> {
    // A space, where the last byte passes the test.
    pub fn put_space(&mut self, rule: Spacing)
        ensures { Writes (space_where (asks_by rule)) self.old self.new }
    {
        if self.is_past() {
            return;
        }
        if rule.is_asked(self.last_byte()) {
            self.put(b' ');
        }
    }
}
