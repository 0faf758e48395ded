//! The file of the text.

use je_base::Files;

/// The greatest file that is read, in bytes.
const MOST_BYTES: usize = 1 << 28;

/// The bytes of the file at a path, or `None` where it is not read.
pub(crate) fn content_at<F: Files>(path: &str, files: &mut F) -> Option<Vec<u8>> {
    match files.read(path, MOST_BYTES) {
        Ok(found) => found,
        Err(_) => None,
    }
}
