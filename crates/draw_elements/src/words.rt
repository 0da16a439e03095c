ghost use Rattle.std.specs.Prelude.{◌≡◌};
ghost use Rattle.draw_elements.specs.Titles.{kind_word};

use history_model::Carried;

/// What an item is called.
pub fn kind_word(item: Carried) -> &'static str
    ensures { result.now ≡ kind_word item }
{
    match item {
        Carried::Post { .. } => "post",
        Carried::Ask { .. } => "request",
        Carried::Done { .. } => "completion",
        Carried::Room => "credit",
        Carried::Gone { .. } => "gone",
    }
}

/// The class of an item.
pub fn kind_class(item: Carried) -> &'static str {
    match item {
        Carried::Post { .. } => "p",
        Carried::Ask { .. } => "a",
        Carried::Done { .. } => "d",
        Carried::Room => "r",
        Carried::Gone { .. } => "x",
    }
}

/// What stands behind the class of a fruitless try.
pub fn faint(pale: bool) -> &'static str {
    if pale { " f" } else { "" }
}
