//! Who is notified of streams.

use crate::refusal::Refusal;
use crate::stream::{Served, Stream};
use ll_client::Shape;

/// Is notified of streams as they come and go.
pub trait Watches<R, W> {
    /// The stream is about to be served.
    fn came(&self, stream: &Stream<R, W>);

    /// The stream was served, and this is left of it. `refusal` is what its client was turned away with, if it was.
    fn went<N: Shape>(
        &self,
        stream: &Stream<R, W>,
        served: &Served<N, R, W>,
        refusal: Option<Refusal>,
    );
}

/// Ignores all streams.
#[derive(Clone, Copy, Drop)]
pub struct Nobody;

impl<R, W> Watches<R, W> for Nobody {
    fn came(&self, stream: &Stream<R, W>) {
        let _ = stream;
    }

    fn went<N: Shape>(
        &self,
        stream: &Stream<R, W>,
        served: &Served<N, R, W>,
        refusal: Option<Refusal>,
    ) {
        let _ = stream;
        let _ = served;
        let _ = refusal;
    }
}
