//! What becomes of files.
use super::assertions::holds;
use super::runs::{run_on_files, shelf_of};

/// A text as `format` lays it out.
const TIDY: &str = "permit (principal, action, resource);\n";

/// The same policy, laid out otherwise.
const LOOSE: &str = "permit(principal,action,resource);";

/// A text that has no tree.
const FAULTY: &str = "permit(principal";

#[test]
fn writes_just_the_files_whose_bytes_change(rt: HostRuntime) {
    let files = [("a", LOOSE), ("b", TIDY), ("c", FAULTY), ("d", LOOSE)];
    let words = [
        "format", "-w", "-p", "a", "-p", "b", "-p", "c", "-p", "none",
    ];
    let left = run_on_files(
        &rt,
        words.as_slice(),
        shelf_of(&rt, files.as_slice(), false),
    );
    holds(&rt, left.status == 4);
    holds(&rt, left.output.is_empty());
    let wants = [(TIDY, 1), (TIDY, 0), (FAULTY, 0), (LOOSE, 0)];
    for (file, (text, writes)) in left.shelf.0.iter().zip(wants.as_slice()) {
        holds(&rt, file.bytes.as_slice() == text.as_bytes());
        holds(&rt, file.writes == *writes);
    }
    drop(left);
}

#[test]
fn compares_files_and_leaves_them(rt: HostRuntime) {
    let files = [("a", TIDY), ("b", LOOSE)];
    let words = ["format", "--check", "-p", "a", "--error-format", "plain"];
    let left = run_on_files(&rt, words.as_slice(), shelf_of(&rt, files.as_slice(), true));
    holds(&rt, left.status == 0);
    holds(&rt, left.output.is_empty() && left.errors.is_empty());
    drop(left);
    let words = [
        "format",
        "--check",
        "-p",
        "a",
        "-p",
        "b",
        "--error-format",
        "plain",
    ];
    let left = run_on_files(&rt, words.as_slice(), shelf_of(&rt, files.as_slice(), true));
    holds(&rt, left.status == 1);
    holds(
        &rt,
        left.output.is_empty() && left.errors.starts_with(b"b:1:7: "),
    );
    drop(left);
}

#[test]
fn tries_all_files_whatever_one_says(rt: HostRuntime) {
    let files = [("a", TIDY), ("b", FAULTY), ("c", TIDY)];
    let words = ["list", "-p", "b", "-p", "none", "-p", "c"];
    let left = run_on_files(
        &rt,
        words.as_slice(),
        shelf_of(&rt, files.as_slice(), false),
    );
    holds(&rt, left.status == 4);
    holds(
        &rt,
        left.output.starts_with(b"{\"annotations\":{},\"effect\":\"permit\",\"file\":\"c\","),
    );
    drop(left);
    let words = ["list", "-p", "a", "-p", "b"];
    let left = run_on_files(
        &rt,
        words.as_slice(),
        shelf_of(&rt, files.as_slice(), false),
    );
    holds(&rt, left.status == 1);
    drop(left);
}
