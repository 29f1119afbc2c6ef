ghost use Rattle.run_meaning.specs.Numbers.{CountStays, OthersStay, WrittenIsRead};

/// What is written at a number stands there, what stands at other numbers stays, and nothing is added.
pub fn numbers_hold<T>()
    ensures written { WrittenIsRead T }
    ensures others { OthersStay T }
    ensures count { CountStays T }
{}
