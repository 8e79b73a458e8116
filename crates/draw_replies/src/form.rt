//! The forms in which a run is drawn.

/// How a run and its contracts are drawn.
#[derive(Clone, Copy)]
pub enum Form {
    /// As a page of HTML.
    Page,
    /// The rows at its end as SVG.
    Svg,
}
