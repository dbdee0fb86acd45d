// What a step puts out, and the words that it leaves for the next one.

#[derive(Clone, Copy)]
pub struct Step<O, W> {
    pub out: O,
    pub words: W,
}
