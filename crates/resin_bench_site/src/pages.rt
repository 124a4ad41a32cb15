//! The site of a sample run.
ghost use Rattle.std.specs.Prelude.{◌≡◌, OnOk, OnErr};
ghost use Rattle.resin_bench_site.specs.Site.{site_files, with_files};

use resin_memory::CalmFiles;
use std::alloc::AllocError;

/// What runs before each page: a policy whose check refuses every channel where its number divided by 7 leaves 3.
const BOOT: &[u8] =
    b"<?php class Tag extends Policy { public $n = 0; function export_check($c) { if ($this->n % 7 == 3) { throw new PolicyException(); } } }";

/// A page that writes a file, one of ten, all of whose bytes carry such a policy.
const WRITING: &[u8] =
    b"<?php $t = new Tag(); $t->n = (int)$_GET['n']; file_put_contents('f' . ($t->n % 10), policy_add(str_repeat('x', $t->n % 50 + 1), $t)); echo 'ok';";

/// A page that shows one of these files.
const READING: &[u8] = b"<?php echo '[', file_get_contents('f' . ((int)$_GET['n'] % 10)), ']';";

/// Writes the site of a sample run: `boot.php`, `w.php` and `r.php`, in this order and with empty shadow texts (FORMATS.md, "The
/// sample"). Files at other paths stay as they are, and what stood at these is gone. After want of memory all files are as before.
pub fn sample_site(files: &mut CalmFiles) -> Result<(), AllocError>
    ensures ok { OnOk result (files.new ≡ with_files files.old site_files) }
    ensures err { OnErr result (files.new ≡ files.old) }
{
    let mut site = files.copy()?;
    site.put(b"boot.php", BOOT, b"")?;
    site.put(b"w.php", WRITING, b"")?;
    site.put(b"r.php", READING, b"")?;
    *files = site;
    Ok(())
}
