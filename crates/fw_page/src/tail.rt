//! What each page ends with. Made by `tools/page/build_head.py --write`; its `--check` compares.

/// The end of the element of lines, and of the page.
pub const TAIL: &str = r##"</xmp>
</body>
</html>
"##;
