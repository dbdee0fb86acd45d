// The kinds of cases, each of a number in the file.

#[derive(Clone, Copy, PartialEq, Eq)]
pub enum Operation {
    Add,
    Sub,
    Shl2,
    Product,
    Narrow,
}

#[derive(Clone, Copy, PartialEq, Eq)]
pub enum Stage {
    Ar2,
    Down2,
    Split,
    Down2_3,
    Up2,
    IirFir,
    DownFir,
    // A number of no kind: the case is read, and differs.
    Unknown,
}

#[derive(Clone, Copy)]
pub enum Kind {
    Word(Operation),
    Run(Stage),
    Line,
}

impl From<i32> for Kind {
    fn from(number: i32) -> Kind {
        match number {
            0 => Kind::Word(Operation::Add),
            1 => Kind::Word(Operation::Sub),
            2 => Kind::Word(Operation::Shl2),
            3 => Kind::Word(Operation::Product),
            4 => Kind::Word(Operation::Narrow),
            5 => Kind::Run(Stage::Ar2),
            6 => Kind::Run(Stage::Down2),
            7 => Kind::Run(Stage::Split),
            8 => Kind::Run(Stage::Down2_3),
            9 => Kind::Run(Stage::Up2),
            10 => Kind::Run(Stage::IirFir),
            11 => Kind::Run(Stage::DownFir),
            12 => Kind::Line,
            _ => Kind::Run(Stage::Unknown),
        }
    }
}
