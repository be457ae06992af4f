// The names in scope, as the bits of a plain number: a type of its own would only wrap the one test and the one sum that
// the readers make.
ghost use Rattle.std.specs.Prelude.{◌≡◌, ◌^◌, ◌<◌, drop};
ghost use Rattle.table.specs.Check.{in?, named};
ghost use Rattle.table.specs.Laws.ScopeMask.{bits};

// Whether x is a name in scope.
pub fn in_scope(scope: u64, x: u64) -> bool
    requires { scope < 2 ^ 16 }
    ensures { result ≡ in? x (bits scope) }
{
    x < 16 && (scope >> x) % 2 == 1
}

// Whether the q bytes from `at` on are there, and each is a name in scope.
pub fn names_at(s: &[u8], at: usize, q: u64, scope: u64) -> bool
    requires { scope < 2 ^ 16 }
    ensures { result ≡ named q (bits scope) (drop at s.now) }
{
    let rest = s.get(at..).unwrap_or(&[]);
    match rest.get(..q as usize) {
        Some(names) => names.iter().all(|x| in_scope(scope, u64::from(*x))),
        None => false,
    }
}
