// What a production begins with, and how many bytes that takes.
// The arms have literals of it: the call of a function that makes one joins the ways into a default arm, and the proofs
// of `one_dollar` and `two_dollars` did not close there, the byte's ranges being lost.

#[derive(Clone, Copy)]
pub struct Start<F> {
    pub form: F,
    pub taken: usize,
}
