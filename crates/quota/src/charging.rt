// A division that is charged to a shop: the shop's check, the plain division, and its count taken from the balance.
// Where the balance is below the count both outputs become +0.0 and the balance is kept.
ghost use Rattle.std.specs.Prelude.{◌<◌, ◌≡◌, length};
ghost use Rattle.divide.specs.Subdividing.{subdivide_path, division_in, poses_left, joints_left};
ghost use Rattle.quota.specs.Quota as S;
ghost use Rattle.quota.specs.Calls.{Divide, after};
ghost use Rattle.quota.specs.Charged.{Charged};
ghost use Rattle.quota.specs.QuotaSteps as Steps;

use crate::granting::shop_check;
use chain::Kinematics;
use divide::DivisionError;
use middle::Tolerances;
use refusal::{Cause, Refusal};

// The reported count of a division that succeeds; a refused one is charged nothing.
fn charge_of(said: Result<u64, DivisionError>) -> u64
    ensures { result ≡ Steps.charge_of said }
{
    said.unwrap_or(0)
}

// Charges a division whose outputs are there already.
pub fn settle(
    said: Result<u64, DivisionError>,
    balances: &mut [u64],
    shop: usize,
    poses: &mut [f64],
    joints: &mut [f64],
) -> Result<u64, DivisionError>
    requires { shop < length balances.old }
    ensures answer { result ≡ Steps.settled_said (S.balance_of balances.old shop) said }
    ensures poses { poses.new ≡ Steps.settled_over (S.balance_of balances.old shop) said poses.old }
    ensures joints { joints.new ≡ Steps.settled_over (S.balance_of balances.old shop) said joints.old }
    ensures balances { balances.new ≡ Steps.settled_balances balances.old shop said }
{
    let charge = charge_of(said);
    let balance = balances[shop];
    if charge <= balance {
        balances[shop] = balance - charge;
        return said;
    }
    poses.fill(0.0);
    joints.fill(0.0);
    Err(Refusal::new(Cause::BalanceShort, 0).into())
}

// The given poses with their joint sets divided for a shop; chain and tolerances apart, as `subdivide_path` takes them.
pub fn divide_for(
    balances: &mut [u64],
    shop: u64,
    k: &Kinematics,
    tol: Tolerances,
    given: &[f64],
    solved: &[f64],
    poses: &mut [f64],
    joints: &mut [f64],
) -> Result<u64, DivisionError>
    ensures answer { let plain = subdivide_path k.now tol given.now solved.now (length poses.old) (length joints.old) in
        result ≡ division_in (S.charged_division balances.old shop plain) }
    ensures poses { let plain = subdivide_path k.now tol given.now solved.now (length poses.old) (length joints.old) in
        poses.new ≡ poses_left (S.charged_division balances.old shop plain) poses.old }
    ensures joints { let plain = subdivide_path k.now tol given.now solved.now (length poses.old) (length joints.old) in
        joints.new ≡ joints_left (S.charged_division balances.old shop plain) joints.old }
    ensures balances { let plain = subdivide_path k.now tol given.now solved.now (length poses.old) (length joints.old) in
        balances.new ≡ after balances.old (Divide shop plain) }
    ensures price { let plain = subdivide_path k.now tol given.now solved.now (length poses.old) (length joints.old) in
        Charged balances.old shop plain k.now tol given.now solved.now (length poses.old) (length joints.old) result poses.new joints.new }
{
    shop_check(balances.len(), shop)?;
    let said = divide::subdivide_path(k, tol, given, solved, poses, joints);
    settle(said, balances, shop as usize, poses, joints)
}
