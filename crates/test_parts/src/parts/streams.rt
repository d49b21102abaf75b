//! Drawn words against those of another implementation of ChaCha20. The expected words are those of
//! the package `cryptography` of Python: the keystream under the seed as key, with 16 bytes of
//! nonce: a block counter of 0 and then the stream's number, each of 8 bytes, read as 32-bit
//! numbers (all little-endian).
use sim_streams::{STREAMS, Streams};

const ZEROS: [u8; 32] = [0; 32];

const COUNTED: [u8; 32] = [
    0, 1, 2, 3, 4, 5, 6, 7, 8, 9, 10, 11, 12, 13, 14, 15, 16, 17, 18, 19, 20, 21, 22, 23, 24, 25,
    26, 27, 28, 29, 30, 31,
];

#[derive(Clone, Copy)]
enum Act {
    // Draws the next word of the stream.
    Draw(u16, u32),
    // Undoes this many draws.
    Undraw(u16, u64),
    // The place of the stream.
    Place(u16, u64),
}

fn draw(streams: &mut Streams, stream: u16) -> Option<u32> {
    if stream >= STREAMS || streams.place(stream) >= 1 << 40 {
        return None;
    }
    Some(streams.draw(stream))
}

fn undraw(streams: &mut Streams, stream: u16, words: u64) -> bool {
    if stream >= STREAMS || streams.place(stream) < words {
        return false;
    }
    streams.undraw(stream, words);
    true
}

// Carries out an act, and returns whether the answer is the expected one.
fn goes(streams: &mut Streams, act: Act) -> bool {
    match act {
        Act::Draw(stream, word) => draw(streams, stream) == Some(word),
        Act::Undraw(stream, words) => undraw(streams, stream, words),
        Act::Place(stream, place) => stream < STREAMS && streams.place(stream) == place,
    }
}

// Returns whether all acts have the expected answers.
fn all_go(streams: &mut Streams, acts: &[Act]) -> bool {
    let mut well = true;
    for act in acts {
        well &= goes(streams, *act);
    }
    well
}

const THERE_AND_BACK: [Act; 8] = [
    Act::Draw(0, 2917185654),
    Act::Draw(0, 2419978656),
    Act::Draw(0, 3848953152),
    Act::Draw(0, 683509331),
    Act::Undraw(0, 2),
    Act::Place(0, 2),
    Act::Draw(0, 3848953152),
    Act::Place(0, 3),
];

#[test]
fn walked_back(rt: HostRuntime) {
    let mut streams = Streams::new(ZEROS);
    let there = all_go(&mut streams, &THERE_AND_BACK);
    let mut other = streams.copy();
    let copied = all_go(&mut other, &[Act::Draw(0, 683509331), Act::Place(0, 4)]);
    let apart = all_go(&mut streams, &[Act::Place(0, 3), Act::Place(1, 0)]);
    assert_eq!(rt; (there, copied, apart), (true, true, true));
}

// A seed, a stream, a place and the word there.
const WORDS: [([u8; 32], u16, u32, u32); 15] = [
    (ZEROS, 0, 15, 2254827186),
    (ZEROS, 0, 16, 3202811807),
    (ZEROS, 0, 63, 2115397425),
    (ZEROS, 0, 64, 1955112677),
    (ZEROS, 0, 127, 3682866966),
    (ZEROS, 0, 128, 3575810076),
    (ZEROS, 0, 1000, 3332873229),
    (ZEROS, 1, 0, 3604955119),
    (ZEROS, 1, 64, 4130098730),
    (ZEROS, 33, 0, 812251106),
    (ZEROS, 33, 16, 2248843165),
    (COUNTED, 0, 0, 2100034873),
    (COUNTED, 1, 15, 167380079),
    (COUNTED, 2, 1, 400057676),
    (COUNTED, 33, 1000, 1101781921),
];

// Returns the word of a stream at a place, which it draws after all before.
fn word_at(seed: [u8; 32], stream: u16, place: u32) -> Option<u32> {
    let mut streams = Streams::new(seed);
    for _ in 0..place {
        draw(&mut streams, stream);
    }
    draw(&mut streams, stream)
}

#[test]
fn words_by_place(rt: HostRuntime) {
    for (seed, stream, place, word) in &WORDS {
        let is_right = word_at(*seed, *stream, *place) == Some(*word);
        assert!(rt; is_right, "stream {stream}, place {place}");
    }
}

// Undoes this many draws and draws the words again. Returns whether they are the same.
fn drawn_again(streams: &mut Streams, words: &[u32], back: usize) -> bool {
    let Some(from) = words.len().checked_sub(back) else {
        return false;
    };
    undraw(streams, 2, back as u64)
        && words[from..]
            .iter()
            .all(|word| draw(streams, 2) == Some(*word))
}

// Draws the first words of a stream.
fn first_words(streams: &mut Streams) -> [u32; 150] {
    let mut words = [0; 150];
    for word in &mut words {
        *word = draw(streams, 2).unwrap_or(0);
    }
    words
}

// How many words to go back, one after the other.
const BACK: [usize; 9] = [1, 6, 7, 22, 23, 80, 87, 149, 150];

#[test]
fn walks_over_borders(rt: HostRuntime) {
    let mut streams = Streams::new(COUNTED);
    let words = first_words(&mut streams);
    let known = (words[0], words[16], words[64]);
    assert!(rt; known == (3514151508, 1442751401, 3880648186));
    for back in &BACK {
        assert!(rt; drawn_again(&mut streams, &words, *back));
    }
    assert!(rt; goes(&mut streams, Act::Place(2, 150)));
}
