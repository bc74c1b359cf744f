//! The page of the board, as `board/embed` writes it into `page.rt` of `board/page.html`.
//!
//! Whoever sends the page sends [`HEAD`] and then [`TAIL`], under the policy [`POLICY`] in `content-security-policy`: with it a browser
//! runs the page's own style and script, which it knows by their sums, and asks nobody but the server that sent the page. A file of a
//! finished run has the run's texts between the two parts, and the policy inside them, but for `frame-ancestors`, which a header alone
//! can say.
//!
//! Nothing is promised of the texts. `board/embed --check` compares them with `board/page.html`, and `board/check` tries the page in a
//! browser.
//!
//! | part | what it has |
//! |---|---|
//! | `page` | the policy, and the page in two parts |
#![tactic(auto)]

mod page;

pub use page::{HEAD, POLICY, TAIL};
