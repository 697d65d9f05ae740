// Lists of values by name.
ghost use Rattle.std.specs.Prelude.{◌≡◌};
ghost use Rattle.jsh_io.specs.Named.{first_named, others_named};

/// A value with its name.
#[derive(Drop)]
pub(crate) struct Named<T> {
    pub(crate) name: String,
    pub(crate) value: T,
}

/// Takes each value of this name out of the list, and answers the first of them.
pub(crate) fn take_named<T: Drop>(list: &mut Vec<Named<T>>, name: &str) -> Option<T>
    ensures first { result ≡ first_named name.now list.old.items }
    ensures rest { list.new.items ≡ others_named name.now list.old.items }
{
    let mut first = None;
    let mut at = list.len();
    while at > 0 {
        at -= 1;
        if name == list[at].name.as_str() {
            first = Some(list.remove(at).value);
        }
    }
    first
}
