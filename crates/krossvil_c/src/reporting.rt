// The report of many journals, whose numbers the host keeps.
ghost use Rattle.std.specs.Prelude.{◌≡◌};
ghost use Rattle.krossvil.specs.Host.{code_of, report_told, report_after};

#[unsafe(no_mangle)]
pub extern "C" fn krossvil_report_add(table: &[u8], journal: &[u8], report: &mut [u64]) -> u64
    ensures code { result ≡ code_of (report_told table.now journal.now report.old) }
    ensures numbers { report.new ≡ report_after table.now journal.now report.old }
{
    krossvil::reporting::krossvil_report_add(table, journal, report)
}
