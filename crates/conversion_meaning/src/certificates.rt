ghost use Rattle.conversion_meaning.specs.Laws.{CertificatesHaveNoFault, FaultIsOne, LeastCostsCertify, NoneCostsLess};

/// Where a path, potentials and a total are a certificate, no path costs less than the total.
pub fn none_costs_less()
    ensures { NoneCostsLess }
{}

/// Least costs, the best path and its cost are a certificate.
pub fn least_costs_certify()
    ensures { LeastCostsCertify }
{}

/// A certificate has no fault.
pub fn certificates_have_no_fault()
    ensures { CertificatesHaveNoFault }
{}

/// A claim has one fault at most, the first condition that is false.
pub fn fault_is_one()
    ensures { FaultIsOne }
{}
