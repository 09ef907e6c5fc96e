//! The arguments of a storm.

/// The number of threads, the calls of each, the random seed, and whether to print how many calls of each kind
/// succeeded.
#[derive(Clone, Copy, Debug, PartialEq, Eq)]
pub struct Orders {
    pub threads: usize,
    pub calls: u64,
    pub seed: u64,
    pub tells: bool,
}

/// Each thread has two clients, and a tree has 64.
const MOST_THREADS: usize = 32;
/// The history has room for this many.
const MOST_CALLS: u64 = 900_000;

fn number_in(words: &[String], place: usize, missing: u64) -> Option<u64> {
    match words.get(place) {
        Some(word) => word.as_str().parse::<u64>().ok(),
        None => Some(missing),
    }
}

fn threads_in(words: &[String], place: usize) -> Option<usize> {
    match words.get(place) {
        Some(word) => word.as_str().parse::<usize>().ok(),
        None => Some(8),
    }
}

fn fit(threads: usize, calls: u64) -> bool {
    let all = (threads as u64).saturating_mul(calls);
    1 <= threads && threads <= MOST_THREADS && all <= MOST_CALLS
}

/// Parses the arguments. Without any, the storm is small.
pub fn orders_by(words: &[String]) -> Option<Orders> {
    let orders = Orders {
        threads: threads_in(words, 0)?,
        calls: number_in(words, 1, 2_000)?,
        seed: number_in(words, 2, 1)?,
        tells: !words.is_empty(),
    };
    if words.len() <= 3 && fit(orders.threads, orders.calls) {
        Some(orders)
    } else {
        None
    }
}
