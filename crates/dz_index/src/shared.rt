//! The longest name that encloses two names.

ghost use Rattle.std.specs.Prelude.{◌≡◌, ◌≤◌, length, drop};
ghost use Rattle.dz_name.specs.Words.{Name};
ghost use Rattle.dz_name.specs.Name.{IsName, IsWithin};

use dz_name::NameRef;

/// The name after the first labels.
fn ancestor<'a>(name: &NameRef<'a>, skip: usize) -> NameRef<'a>
    requires { skip ≤ length name.now }
    ensures rest { result ≡ drop skip name.now }
    ensures name { IsName (drop skip name.now) }
{
    NameRef::of_wire(name.behind(skip))
}

/// The name after the first label.
fn above<'a>(name: &NameRef<'a>) -> NameRef<'a>
    requires { 1 ≤ length name.now }
    ensures { result ≡ drop 1 name.now }
{
    ancestor(name, 1)
}

/// How many first labels a name has before the longest name that encloses it and another one. It reads each label of the
/// two names once at most.
pub fn labels_apart(name: &NameRef, other: &NameRef) -> usize
    ensures within { result ≤ length name.now }
    ensures encloses { IsWithin other.now (drop result name.now) }
    ensures longest { (zone : Name) → IsWithin name.now zone → IsWithin other.now zone
        → IsWithin (drop result name.now) zone }
{
    let mut near = ancestor(name, 0);
    let mut far = ancestor(other, 0);
    let mut apart: usize = 0;
    // what encloses both is no longer than the shorter one
    'labels: while !near.same(&far) {
        if far.wire().len() <= near.wire().len() {
            near = above(&near);
            apart += 1;
        } else {
            far = above(&far);
        }
    }
    apart
}
