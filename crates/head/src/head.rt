ghost use Rattle.std.specs.Prelude.{◌≡◌, true};
ghost use Rattle.head.specs.Heads.{lawful};

use super::items::HeadItems;

/// A head whose items are lawful.
#[derive(Clone, Copy)]
pub struct Head {
    items: HeadItems,
    ghost checked: { lawful items ≡ true },
}

impl Head {
    pub fn items(&self) -> HeadItems
        ensures value { result ≡ self.now.items }
        ensures checked { lawful result ≡ true }
    {
        self.items
    }

    pub(crate) fn of(items: HeadItems) -> Head
        requires { lawful items ≡ true }
        ensures { result.items ≡ items }
    {
        Head { items }
    }
}
